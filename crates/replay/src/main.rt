// Replays the trace on standard input on what pile.sheet lists, over image.bin and, for two images, image2.bin, all in the
// current folder, and prints a report or why there is none.
#![tactic(auto)]

use anyhow::anyhow;
use files::{IMAGE, IMAGE_BYTES, SECOND_IMAGE, SHEET_BYTES, read_some, write_over};
use formats::{Images, Report, SheetFault, read_sheet};
use replaying::{ReplayFault, Replayed, replay};
use std::io;
use std::io::{Read, Write};

const SHEET: &str = "pile.sheet";

// The most bytes that are read of a trace.
const TRACE_BYTES: u64 = 65536;

// A report of four levels has fewer bytes.
const REPORT_BYTES: usize = 1024;

fn read_trace(rt: &HostRuntime) -> io::Result<Vec<u8>> {
    let mut bytes = Vec::new(rt.alloc());
    rt.stdin().take(TRACE_BYTES).read_to_end(&mut bytes)?;
    Ok(bytes)
}

// Whether the sheet lists a second image.
fn lists_second(rt: &HostRuntime, sheet: &[u8]) -> anyhow::Result<bool> {
    match read_sheet(rt.alloc(), sheet) {
        Ok(listed) => Ok(matches!(listed.images, Images::Striped(_))),
        Err(SheetFault::Memory) => Err(SheetFault::Memory.into()),
        Err(_) => Ok(false),
    }
}

// The second image's bytes, if the sheet lists it.
fn read_second(rt: &HostRuntime, sheet: &[u8]) -> anyhow::Result<Vec<u8>> {
    if lists_second(rt, sheet)? {
        return Ok(read_some(rt, SECOND_IMAGE, IMAGE_BYTES)?);
    }
    Ok(Vec::new(rt.alloc()))
}

// Prints what a replay tells.
fn print_report(rt: &HostRuntime, told: &Replayed) -> anyhow::Result<()> {
    let mut buffer = [0u8; REPORT_BYTES];
    let report = Report {
        levels: &told.levels,
        floor: u64::from(told.floor),
        refused: told.refused,
    };
    let length = report
        .write(&mut buffer)
        .map_err(|_| anyhow!("the report is too long"))?;
    Ok(rt.stdout().write_all(&buffer[..length])?)
}

fn run(rt: &HostRuntime) -> anyhow::Result<()> {
    let sheet = read_some(rt, SHEET, SHEET_BYTES)?;
    let mut first = read_some(rt, IMAGE, IMAGE_BYTES)?;
    let mut second = read_second(rt, &sheet)?;
    let trace = read_trace(rt)?;
    match replay(rt.alloc(), &sheet, &mut first, &mut second, &trace) {
        Ok(told) => {
            write_over(rt, IMAGE, &first)?;
            write_over(rt, SECOND_IMAGE, &second)?;
            print_report(rt, &told)
        }
        Err(ReplayFault::Memory) => Err(ReplayFault::Memory.into()),
        Err(fault) => Ok(println!(rt; "{fault}")?),
    }
}

fn main(rt: HostRuntime) -> anyhow::Result<()> {
    run(&rt)
}
