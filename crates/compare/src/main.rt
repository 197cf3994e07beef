// Compares the layouts of two sheets over image.bin and image2.bin in the current folder: whether they serve equally many
// touches on every trace, and if not, a trace on which they do not.
#![tactic(auto)]

use anyhow::anyhow;
use certificate::{Comparison, Verdict};
use comparing::{ImagePair, LayoutFault, Side, compare_sheets};
use files::{IMAGE, IMAGE_BYTES, SECOND_IMAGE, SHEET_BYTES, read_some};
use std::{env, io};

const USAGE: &str = "usage: compare FIRST.sheet SECOND.sheet [LEVELS LEVELS]";

// As many levels as a sheet can list: all of them.
const ALL: u32 = 4;

// A trace of the reads that tell the layouts apart.
fn print_trace(rt: &HostRuntime, reads: &[u32]) -> io::Result<()> {
    println!(rt; "demote-trace 1")?;
    for b in reads {
        println!(rt; "R {b}")?;
    }
    Ok(())
}

fn print_comparison(rt: &HostRuntime, comparison: &Comparison) -> io::Result<()> {
    println!(rt; "first capacity {}", comparison.first)?;
    println!(rt; "second capacity {}", comparison.second)?;
    println!(rt; "sound blocks {}", comparison.sound)?;
    match &comparison.verdict {
        Verdict::Alike => println!(rt; "alike on every trace"),
        Verdict::Differ(reads) => {
            println!(rt; "different on this trace")?;
            print_trace(rt, reads)
        }
    }
}

// How many levels of a layout to compare: all where no number is given.
fn levels(word: Option<String>) -> anyhow::Result<u32> {
    match word {
        Some(text) => Ok(text.as_str().parse()?),
        None => Ok(ALL),
    }
}

fn run(rt: &HostRuntime) -> anyhow::Result<()> {
    let mut words = env::args(rt)?;
    let _program = words.next();
    let (Some(one), Some(other)) = (words.next(), words.next()) else {
        return Err(anyhow!("{USAGE}"));
    };
    let j = levels(words.next())?;
    let k = levels(words.next())?;
    let one = read_some(rt, one.as_str(), SHEET_BYTES)?;
    let other = read_some(rt, other.as_str(), SHEET_BYTES)?;
    let image = read_some(rt, IMAGE, IMAGE_BYTES)?;
    let image2 = read_some(rt, SECOND_IMAGE, IMAGE_BYTES)?;
    let first = Side {
        sheet: one.as_slice(),
        levels: j,
    };
    let second = Side {
        sheet: other.as_slice(),
        levels: k,
    };
    let images = ImagePair {
        first: &image,
        second: &image2,
    };
    match compare_sheets(rt.alloc(), first, second, images) {
        Ok(comparison) => print_comparison(rt, &comparison)?,
        Err(LayoutFault::Memory) => return Err(LayoutFault::Memory.into()),
        Err(fault) => println!(rt; "{fault}")?,
    }
    Ok(())
}

fn main(rt: HostRuntime) -> anyhow::Result<()> {
    run(&rt)
}
