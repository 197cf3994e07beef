// Work on a tier under empty levels.
ghost use Rattle.std.specs.Prelude.{◌≡◌, ◌≤◌, [], ◌∷◌};
ghost use Rattle.device.specs.Store.{Store};
ghost use Rattle.tier.specs.Models.{Model};
ghost use Rattle.replaying.specs.Outcomes.{stacked};

use crate::levels::level_of;
use tier::Tier;

// A tier after some work, and what the work tells.
#[derive(Drop)]
pub struct Done<T, A> {
    pub tier: T,
    pub told: A,
}

// Work on any tier, which is handed back after it.
pub trait Work {
    // what it tells
    type Told;

    // what it needs of the tier
    ghost needs: { Self → Model → Type 0 };

    // what it tells of the tier, and leaves as its stored blocks
    ghost gives: { Self → Model → Self.Told → Store → Type 0 };

    // Does the work on a tier.
    fn on<T: Tier>(self, tier: T) -> Done<T, Self::Told>
        requires { needs self (T.Tier.model tier) }
        ensures gives { gives self (T.Tier.model tier) result.told (T.Tier.model result.tier).store }
        ensures loans { T.Tier.loans result.tier ≡ T.Tier.loans tier };
}

// The work on one more empty level over a tier.
pub struct Under<W> {
    work: W,
    capacity: u8,
    ghost lawful: { (1 ≤ capacity) × (capacity ≤ 16) },
}

impl<W> Under<W> {
    pub fn new(work: W, capacity: u8) -> Under<W>
        requires { (1 ≤ capacity) × (capacity ≤ 16) }
        ensures work { result.work ≡ work }
        ensures capacity { result.capacity ≡ capacity }
    {
        Under { work, capacity }
    }
}

impl<W: Work> Work for Under<W> {
    type Told = W::Told;

    ghost needs = { λ u m. W.needs u.work (stacked (u.capacity ∷ []) m) };

    ghost gives = { λ u m told s. W.gives u.work (stacked (u.capacity ∷ []) m) told s };

    fn on<T: Tier>(self, tier: T) -> Done<T, W::Told> {
        let Under { work, capacity } = self;
        let Done { tier, told } = work.on(level_of(tier, capacity));
        Done {
            tier: tier.into_below(),
            told,
        }
    }
}
