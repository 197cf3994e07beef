// The cases: a sheet, images and a trace each.
use replaying::{Replayed, replay};
use std::alloc::{AllocError, Global};

fn print_told(rt: &HostRuntime, told: &Replayed) -> anyhow::Result<()> {
    for level in &told.levels {
        println!(rt; "  capacity {} hits {}", level.capacity, level.hits)?;
    }
    Ok(println!(rt; "  floor {} refused {}", told.floor, told.refused)?)
}

// The first byte of each block, and then the last byte of all.
fn print_image(rt: &HostRuntime, name: &str, bytes: &[u8]) -> anyhow::Result<()> {
    print!(rt; "  {name}:")?;
    for block in bytes.chunks(256) {
        print!(rt; " {}", block[0])?;
    }
    let last = bytes.last().unwrap_or(&0);
    Ok(println!(rt; ", last {last}")?)
}

// Bytes that are all one byte: which, and how many.
struct Filled(u8, usize);

impl Filled {
    fn bytes(&self, heap: Global) -> Result<Vec<u8>, AllocError> {
        Ok(vec![in heap; self.0; self.1]?)
    }
}

// A trace on what a sheet lists, and what the two slices hold before it.
struct Case {
    name: &'static str,
    sheet: &'static [u8],
    first: Filled,
    second: Filled,
    trace: &'static [u8],
}

const CASES: &[Case] = &[
    // The example of the manual.
    Case {
        name: "example",
        sheet: b"PILE\x02\x02\x03\x01\x01\x01\x00\x06",
        first: Filled(0, 2048),
        second: Filled(0, 0),
        trace: b"demote-trace 1\nR 0\nR 1\nW 2 5a\nR 0\nR 3\nR 4\nR 1\nR 6\nW 5 07\nR 2\nR 2\nS\n",
    },
    // Two images in runs of two blocks: eight blocks in all, and no sync in the trace.
    Case {
        name: "striped",
        sheet: b"PILE\x01\x01\x02\x02\x02\x00",
        first: Filled(0, 1280),
        second: Filled(0, 1792),
        trace: b"demote-trace 1\nW 5 0a\nW 6 0b\nR 8\nW 0 01\nW 0 02\n",
    },
    // Every touch is the floor's; the second slice is no image of the sheet's.
    Case {
        name: "no levels",
        sheet: b"PILE\x00\x01\x01\x00",
        first: Filled(3, 512),
        second: Filled(4, 256),
        trace: b"demote-trace 1\nW 1 ff\nR 1\nR 2\nS\n",
    },
    // Bytes past the last whole block stay.
    Case {
        name: "tail",
        sheet: b"PILE\x01\x10\x01\x01\x00",
        first: Filled(9, 300),
        second: Filled(0, 0),
        trace: b"demote-trace 1\nW 0 ff\nW 1 01\n",
    },
    Case {
        name: "empty image",
        sheet: b"PILE\x01\x01\x01\x01\x00",
        first: Filled(0, 0),
        second: Filled(0, 0),
        trace: b"demote-trace 1\nR 0\nW 0 00\nS\n",
    },
    Case {
        name: "capacity 17",
        sheet: b"PILE\x01\x11\x01\x01\x00",
        first: Filled(5, 256),
        second: Filled(0, 0),
        trace: b"demote-trace 1\nW 0 00\n",
    },
    // The sheet is told before the trace.
    Case {
        name: "both broken",
        sheet: b"PILE\x01",
        first: Filled(5, 256),
        second: Filled(0, 0),
        trace: b"",
    },
    // The whole trace is judged before its first line runs.
    Case {
        name: "broken line",
        sheet: b"PILE\x00\x01\x01\x00",
        first: Filled(5, 256),
        second: Filled(0, 0),
        trace: b"demote-trace 1\nW 0 00\nR 07\n",
    },
];

fn show(rt: &HostRuntime, case: &Case) -> anyhow::Result<()> {
    let mut first = case.first.bytes(rt.alloc())?;
    let mut second = case.second.bytes(rt.alloc())?;
    println!(rt; "{}", case.name)?;
    match replay(rt.alloc(), case.sheet, &mut first, &mut second, case.trace) {
        Ok(told) => print_told(rt, &told)?,
        Err(fault) => println!(rt; "  {fault}")?,
    }
    print_image(rt, "first", &first)?;
    print_image(rt, "second", &second)
}

pub fn show_all(rt: &HostRuntime) -> anyhow::Result<()> {
    for case in CASES {
        show(rt, case)?;
    }
    Ok(())
}
