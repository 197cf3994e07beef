// Running the lines of a trace on a tier.
ghost use Rattle.std.specs.Prelude.{◌≡◌, Ok};
ghost use Rattle.formats.specs.Shown.{shown};
ghost use Rattle.formats.specs.Traces.{Said};
ghost use Rattle.pile.specs.Mounts.{mount_answer};
ghost use Rattle.pile.specs.Piles.{sync, stepped, after};
ghost use Rattle.pile.specs.Mounted.{pile_model};
ghost use Rattle.pile.specs.Tallies.{pile_of};
ghost use Rattle.replaying.specs.Calls.{call_of, calls_of};
ghost use Rattle.replaying.specs.Runs.{refuses, refusals};
ghost use Rattle.replaying.specs.Outcomes.{Tells, synced_store};

use crate::work::{Done, Work};
use device::BLOCK;
use formats::{Line, Lines, fill_in, number_in};
use pile::{Pile, Tallies};
use tier::Tier;

// What a run tells: the tallies, and how many reads and writes were refused.
#[derive(Clone, Copy)]
pub struct Outcome {
    pub tallies: Tallies,
    pub refused: u64,
}

// The lines of an accepted trace.
#[derive(Clone, Copy)]
pub struct Trace<'a> {
    pub body: &'a [u8],
}

// Reads the block of a line, and tells whether that was refused.
fn run_read<T: Tier>(pile: &mut Pile<T>, number: &[u8]) -> bool
    ensures refused { result ≡ refuses (call_of (Said.read number.now)) (pile_model T.Tier.model pile.old) }
    ensures after { pile_model T.Tier.model pile.new ≡ stepped (call_of (Said.read number.now)) (pile_model T.Tier.model pile.old) }
    ensures loans { T.Tier.loans pile.new.tier ≡ T.Tier.loans pile.old.tier }
{
    let mut buffer = [0u8; BLOCK];
    pile.read(number_in(number).unwrap_or(0), &mut buffer)
        .is_err()
}

// Writes the block of a line, and tells whether that was refused.
fn run_write<T: Tier>(pile: &mut Pile<T>, number: &[u8], fill: &[u8]) -> bool
    ensures refused { result ≡ refuses (call_of (Said.write number.now fill.now)) (pile_model T.Tier.model pile.old) }
    ensures after { pile_model T.Tier.model pile.new ≡ stepped (call_of (Said.write number.now fill.now)) (pile_model T.Tier.model pile.old) }
    ensures loans { T.Tier.loans pile.new.tier ≡ T.Tier.loans pile.old.tier }
{
    let bytes = [fill_in(fill).unwrap_or(0); BLOCK];
    pile.write(number_in(number).unwrap_or(0), &bytes).is_err()
}

// Runs a line, and tells whether it was refused; a refused sync does not count.
fn run_line<T: Tier>(pile: &mut Pile<T>, line: Line<'_>) -> bool
    ensures refused { result ≡ refuses (call_of (shown line.entry)) (pile_model T.Tier.model pile.old) }
    ensures after { pile_model T.Tier.model pile.new ≡ stepped (call_of (shown line.entry)) (pile_model T.Tier.model pile.old) }
    ensures loans { T.Tier.loans pile.new.tier ≡ T.Tier.loans pile.old.tier }
{
    match line {
        Line::Read { number } => run_read(pile, number),
        Line::Write { number, fill } => run_write(pile, number, fill),
        Line::Sync => {
            let _ = pile.sync();
            false
        }
    }
}

// Runs the lines of an accepted trace in order, and tells how many were refused.
fn run<T: Tier>(pile: &mut Pile<T>, body: &[u8]) -> u64
    ensures refused { result ≡ refusals (calls_of body.now) (pile_model T.Tier.model pile.old) }
    ensures after { pile_model T.Tier.model pile.new ≡ after (calls_of body.now) (pile_model T.Tier.model pile.old) }
    ensures loans { T.Tier.loans pile.new.tier ≡ T.Tier.loans pile.old.tier }
{
    let mut refused = 0;
    for line in Lines::new(body) {
        refused += u64::from(run_line(pile, line));
    }
    refused
}

// Runs the lines on a mounted tier, syncs it and ends the pile.
fn run_out<T: Tier>(mut mounted: Pile<T>, body: &[u8]) -> Done<T, Outcome>
    ensures after { pile_of (T.Tier.model result.tier) result.told.tallies ≡ stepped sync (after (calls_of body.now) (pile_model T.Tier.model mounted)) }
    ensures refused { result.told.refused ≡ refusals (calls_of body.now) (pile_model T.Tier.model mounted) }
    ensures loans { T.Tier.loans result.tier ≡ T.Tier.loans mounted.tier }
{
    let refused = run(&mut mounted, body);
    let _ = mounted.sync();
    let tallies = *mounted.tallies();
    Done {
        tier: mounted.unmount(),
        told: Outcome { tallies, refused },
    }
}

// Mounts a tier of at most 8 empty levels and runs the lines on it.
impl Work for Trace<'_> {
    type Told = Outcome;

    ghost needs = { λ _ m. mount_answer m ≡ Ok tt };

    ghost gives = { λ t m told s. Tells told (calls_of t.body.now) m × (s ≡ synced_store (calls_of t.body.now) m) };

    fn on<T: Tier>(self, tier: T) -> Done<T, Outcome> {
        match Pile::mount(tier) {
            Ok(pile) => run_out(pile, self.body),
            Err(_) => unreachable(),
        }
    }
}
