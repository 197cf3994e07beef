// Levels of given capacities over two tiers, compared.
ghost use Rattle.std.specs.Vec.{vec_items as items};
ghost use Rattle.comparing.specs.Levels.{Compared};
ghost use Rattle.replaying.specs.Outcomes.{stacked};

use crate::side::Side;
use certificate::{CompareFault, Comparison, Layout, compare};
use formats::Sheet;
use replaying::{Done, Work, on_levels};
use std::alloc::Global;
use tier::Tier;

// A tier, and the sheet whose levels are put over it and compared.
#[derive(Drop)]
pub struct Stack<'a, T> {
    pub tier: T,
    pub side: Side<&'a Sheet>,
}

// The comparison of a layout with the first so many levels of a tier.
#[derive(Clone, Copy)]
struct Beside<'a, F> {
    heap: Global,
    first: Layout<'a, F>,
    levels: u32,
}

impl<F: Tier> Work for Beside<'_, F> {
    type Told = Result<Comparison, CompareFault>;

    ghost needs = { λ _ _. Unit {0} };

    ghost gives = { λ b m told _. Compared (F.Tier.model b.first.tier.now) b.first.levels m b.levels told };

    fn on<T: Tier>(self, tier: T) -> Done<T, Result<Comparison, CompareFault>> {
        let second = Layout {
            tier: &tier,
            levels: self.levels,
        };
        let told = compare(self.heap, self.first, second);
        Done { tier, told }
    }
}

// The comparison of the first so many levels of a tier with levels over another.
struct Across<'a, S> {
    heap: Global,
    levels: u32,
    second: Stack<'a, S>,
}

impl<S: Tier + Drop> Work for Across<'_, S> {
    type Told = Result<Comparison, CompareFault>;

    ghost needs = { λ _ _. Unit {0} };

    ghost gives = { λ a m told _. Compared m a.levels (stacked (items a.second.side.sheet.now.levels) (S.Tier.model a.second.tier)) a.second.side.levels told };

    fn on<T: Tier>(self, tier: T) -> Done<T, Result<Comparison, CompareFault>> {
        let Across {
            heap,
            levels,
            second,
        } = self;
        let first = Layout {
            tier: &tier,
            levels,
        };
        let beside = Beside {
            heap,
            first,
            levels: second.side.levels,
        };
        let Done { told, .. } = on_levels(second.tier, &second.side.sheet.levels, beside);
        Done { tier, told }
    }
}

// Compares the levels of two sheets over two tiers.
pub fn compare_levels<F: Tier + Drop, S: Tier + Drop>(
    heap: Global,
    first: Stack<F>,
    second: Stack<S>,
) -> Result<Comparison, CompareFault>
    ensures { Compared (stacked (items first.entry.side.sheet.now.levels) (F.Tier.model first.entry.tier)) first.entry.side.levels (stacked (items second.entry.side.sheet.now.levels) (S.Tier.model second.entry.tier)) second.entry.side.levels result }
{
    let across = Across {
        heap,
        levels: first.side.levels,
        second,
    };
    let Done { told, .. } = on_levels(first.tier, &first.side.sheet.levels, across);
    told
}
