// Comparisons of layouts.
use crate::mounts::{four_over, take_in};
use crate::plays::{Call, numbered, one, play, two};
use certificate::{CompareFault, Comparison, Layout, Verdict, compare};
use device::{Device, Image};
use layers::DefectList;
use refusal::told;
use std::alloc::{AllocError, Global};
use tier::Tier;

fn print_verdict(rt: &HostRuntime, verdict: Verdict) -> anyhow::Result<()> {
    match verdict {
        Verdict::Alike => println!(rt; ": alike")?,
        Verdict::Differ(reads) => {
            print!(rt; ": told apart by reads")?;
            for b in &reads {
                print!(rt; " {b}")?;
            }
            println!(rt; "")?;
        }
    }
    Ok(())
}

// So many of the first levels of a tier.
fn first_of<T>(levels: u32, tier: &T) -> Layout<'_, T> {
    Layout { tier, levels }
}

// Compares two layouts and prints the answer.
fn print_compared<F: Tier, S: Tier>(
    rt: &HostRuntime,
    first: Layout<'_, F>,
    second: Layout<'_, S>,
) -> anyhow::Result<()> {
    match compare(rt.alloc(), first, second) {
        Ok(
            Comparison {
                first,
                second,
                sound,
                verdict,
            },
        ) => {
            print!(rt; "sums {first} and {second} of {sound} sound blocks")?;
            print_verdict(rt, verdict)
        }
        Err(fault) => Ok(println!(rt; "refused: {fault}")?),
    }
}

// The reads that tell the layouts apart, if they do.
fn telling_reads(
    heap: Global,
    answer: Result<Comparison, CompareFault>,
) -> Result<Vec<Call>, AllocError> {
    let mut calls = Vec::new(heap);
    if let Ok(
        Comparison {
            verdict: Verdict::Differ(reads),
            ..
        },
    ) = &answer
    {
        for b in reads {
            calls.push(Call::Read(*b))?;
        }
    }
    Ok(calls)
}

// Makes the reads that tell two tiers apart over each of them.
fn play_both<F: Tier + Drop, S: Tier + Drop>(
    rt: &HostRuntime,
    first: F,
    second: S,
) -> anyhow::Result<()> {
    let answer = compare(rt.alloc(), first_of(8, &first), first_of(8, &second));
    let calls = telling_reads(rt.alloc(), answer)?;
    play(rt, first, &calls)?;
    play(rt, second, &calls)
}

// Capacities 2 and 3 over one device against a capacity over another.
fn against<F: Device + Drop, S: Device + Drop>(
    rt: &HostRuntime,
    first: F,
    second: S,
    capacity: u32,
) -> anyhow::Result<()> {
    let first = two(2, 3, first);
    let second = one(capacity, second);
    print_compared(rt, first_of(2, &first), first_of(1, &second))
}

// The same, with the reads that tell them apart. The tiers are played on and not lent, so that the two calls share no more.
fn told_apart<F: Device + Drop, S: Device + Drop>(
    rt: &HostRuntime,
    first: F,
    second: S,
    capacity: u32,
) -> anyhow::Result<()> {
    play_both(rt, two(2, 3, first), one(capacity, second))
}

// Capacities 2 and 3 against 5 and against 4.
pub fn sums(rt: &HostRuntime) -> anyhow::Result<()> {
    let mut bytes = numbered(rt.alloc(), 8)?;
    let mut same = numbered(rt.alloc(), 8)?;
    against(rt, Image::new(&mut bytes), Image::new(&mut same), 5)?;
    against(rt, Image::new(&mut bytes), Image::new(&mut same), 4)?;
    told_apart(rt, Image::new(&mut bytes), Image::new(&mut same), 4)
}

// Capacities 2 and 3 against 5 and 1, by how many levels of each.
fn by_levels<F: Device + Drop, S: Device + Drop>(
    rt: &HostRuntime,
    first: F,
    second: S,
) -> anyhow::Result<()> {
    let first = two(2, 3, first);
    let second = two(5, 1, second);
    for (j, k) in [(2u32, 1u32), (1, 2), (0, 0), (0, 1), (4294967295, 2)] {
        print!(rt; "levels {j} and {k}, ")?;
        print_compared(rt, first_of(j, &first), first_of(k, &second))?;
    }
    Ok(())
}

pub fn counts(rt: &HostRuntime) -> anyhow::Result<()> {
    let mut bytes = numbered(rt.alloc(), 8)?;
    let mut same = numbered(rt.alloc(), 8)?;
    by_levels(rt, Image::new(&mut bytes), Image::new(&mut same))
}

// A device with a defect.
fn with_defect<'a>(heap: Global, bytes: &'a mut [u8], defect: u32) -> DefectList<Image<'a>> {
    let mut list = DefectList::new(heap, Image::new(bytes));
    let _ = list.list(defect);
    list
}

// Four blocks of which block 1 is defective: room for more than three does not matter.
pub fn few_sound(rt: &HostRuntime) -> anyhow::Result<()> {
    let mut bytes = numbered(rt.alloc(), 4)?;
    let mut same = numbered(rt.alloc(), 4)?;
    for capacity in [4u32, 3, 2] {
        let first = with_defect(rt.alloc(), &mut bytes, 1);
        let second = with_defect(rt.alloc(), &mut same, 1);
        against(rt, first, second, capacity)?;
    }
    Ok(())
}

// Block 7 differs: refused, unless it is defective in both.
fn other_bytes(rt: &HostRuntime) -> anyhow::Result<()> {
    let mut bytes = numbered(rt.alloc(), 8)?;
    let mut other = numbered(rt.alloc(), 8)?;
    let written = Image::new(&mut other).write(7, &[1u8; 256]).is_ok();
    println!(rt; "block 7 written: {written}")?;
    against(rt, Image::new(&mut bytes), Image::new(&mut other), 5)?;
    let first = with_defect(rt.alloc(), &mut bytes, 7);
    let second = with_defect(rt.alloc(), &mut other, 7);
    against(rt, first, second, 5)
}

// Four levels more over a tier, compared with another.
fn compare_above<F: Tier + Drop, S: Tier>(
    rt: &HostRuntime,
    below: F,
    second: &S,
) -> anyhow::Result<()> {
    let first = four_over(below);
    print_compared(rt, first_of(1, &first), first_of(1, second))
}

// Devices of other sizes, and tiers that cannot be mounted: the tiers are checked first.
fn other_sizes<F: Device + Drop, S: Device + Drop>(
    rt: &HostRuntime,
    first: F,
    second: S,
) -> anyhow::Result<()> {
    let mut first = one(5, first);
    let second = one(5, second);
    print_compared(rt, first_of(1, &first), first_of(1, &second))?;
    println!(rt; "block 3 demoted: {}", told(take_in(&mut first)))?;
    print_compared(rt, first_of(1, &first), first_of(1, &second))?;
    print_compared(rt, first_of(1, &second), first_of(1, &first))?;
    compare_above(rt, four_over(second), &first)
}

pub fn refused(rt: &HostRuntime) -> anyhow::Result<()> {
    other_bytes(rt)?;
    let mut bytes = numbered(rt.alloc(), 8)?;
    let mut fewer = numbered(rt.alloc(), 7)?;
    other_sizes(rt, Image::new(&mut bytes), Image::new(&mut fewer))
}
