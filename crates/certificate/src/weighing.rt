// Comparing layouts: whether the first levels of two tiers serve equally many touches on every list of calls.
ghost use Rattle.std.specs.Prelude.{◌≡◌, min, IfOk};
ghost use Rattle.certificate.specs.declared.weighing.CompareFault.TheVariants.{Memory};
ghost use Rattle.certificate.specs.Certificates.{Certificate};
ghost use Rattle.certificate.specs.Weighings.{pair_answer as checked, judged, seen_verdict as judgement, compare_answer as answered, seen, memory_or};
ghost use Rattle.pile.specs.Reads.{telling as told};

use crate::devices::same_devices;
use crate::layout::Layout;
use crate::reads::telling;
use crate::sizes::{sound_count, sum_of};
use pile::{MountFault, check_mount};
use std::alloc::{AllocError, Global};
use tier::Tier;

// What a comparison of two layouts comes to. It is no `Option` of reads: `None` would not say that they serve alike.
#[derive(Drop)]
pub enum Verdict {
    // They serve equally many touches on every list of calls.
    Alike,
    // Reads of these blocks, in their order, are a list on which they do not.
    Differ(Vec<u32>),
}

// The summed capacities that were compared, how many blocks are sound, and the verdict.
#[derive(Drop)]
pub struct Comparison {
    pub first: u32,
    pub second: u32,
    pub sound: u32,
    pub verdict: Verdict,
}

// Why two layouts were not compared.
#[derive(Clone, Copy, PartialEq, Eq, Debug)]
pub enum CompareFault {
    // The first tier cannot be mounted.
    First(MountFault),
    // The second tier cannot be mounted.
    Second(MountFault),
    // A read can tell their devices apart.
    Devices,
    // There is no memory for the reads that tell them apart.
    Memory,
}

impl From<AllocError> for CompareFault {
    ghost from_gives = { λ _ r. r ≡ Memory };

    fn from(_refused: AllocError) -> CompareFault {
        CompareFault::Memory
    }
}

// Checks that both can be mounted and that no read can tell their devices apart.
fn check_pair<F: Tier, S: Tier>(first: &F, second: &S) -> Result<(), CompareFault>
    ensures { result ≡ checked (F.Tier.model first.now) (S.Tier.model second.now) }
{
    check_mount(first).map_err(CompareFault::First)?;
    check_mount(second).map_err(CompareFault::Second)?;
    if !same_devices(first, second) {
        return Err(CompareFault::Devices);
    }
    Ok(())
}

// What two sums come to where so many blocks are sound: room beyond them does not matter.
fn judge<T: Tier>(
    heap: Global,
    tier: &T,
    first: u32,
    second: u32,
    sound: u32,
) -> Result<Verdict, AllocError>
    ensures { IfOk result (λ v. judgement v ≡ judged first second sound (told (T.Tier.model tier.now).store (min first second))) }
{
    if first.min(sound) == second.min(sound) {
        return Ok(Verdict::Alike);
    }
    let reads = telling(heap, tier, first.min(second))?;
    Ok(Verdict::Differ(reads))
}

// Sums and counts, and judges by them.
fn weigh<F: Tier, S: Tier>(
    heap: Global,
    first: Layout<F>,
    second: Layout<S>,
) -> Result<Comparison, CompareFault>
    ensures { seen result ≡ memory_or result (answered (F.Tier.model first.entry.tier.now) first.entry.levels (S.Tier.model second.entry.tier.now) second.entry.levels) }
{
    check_pair(first.tier, second.tier)?;
    let one = sum_of(first.tier, first.levels);
    let other = sum_of(second.tier, second.levels);
    let sound = sound_count(first.tier);
    let verdict = judge(heap, first.tier, one, other, sound)?;
    Ok(Comparison {
        first: one,
        second: other,
        sound,
        verdict,
    })
}

// Compares the first `j` levels of one tier with the first `k` of another, all of them where there are fewer. The contract
// carries the laws of both tiers over every list of reads, writes and syncs, and ties the verdict to them.
pub fn compare<F: Tier, S: Tier>(
    heap: Global,
    first: Layout<F>,
    second: Layout<S>,
) -> Result<Comparison, CompareFault>
    ensures answer { seen result ≡ memory_or result (answered (F.Tier.model first.entry.tier.now) first.entry.levels (S.Tier.model second.entry.tier.now) second.entry.levels) }
    ensures certificate { Certificate (F.Tier.model first.entry.tier.now) first.entry.levels (S.Tier.model second.entry.tier.now) second.entry.levels result }
{
    weigh(heap, first, second)
}
