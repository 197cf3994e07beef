// A line for each report: its length or the refusal, and the buffer after, with `/` for the end of a line.
use formats::{LevelTally, Report};
use refusal::Refusal;
use std::io;

const TWO: [LevelTally; 2] = [
    LevelTally {
        capacity: 2,
        hits: 5,
    },
    LevelTally {
        capacity: 16,
        hits: 100,
    },
];

// Byte by byte, since a text of them all could find no memory.
fn show_buffer(rt: &HostRuntime, buffer: &[u8]) -> io::Result<()> {
    for b in buffer {
        let c = if *b == b'\n' { '/' } else { char::from(*b) };
        print!(rt; "{c}")?;
    }
    println!(rt; "")
}

fn show(rt: &HostRuntime, name: &str, buffer: &mut [u8], report: &Report) -> io::Result<()> {
    match report.write(buffer) {
        Ok(length) => print!(rt; "{name}: {length} ")?,
        Err(fault) => print!(rt; "{name}: refused {} ", fault.number())?,
    }
    show_buffer(rt, buffer)
}

pub fn show_all(rt: &HostRuntime) -> io::Result<()> {
    let none = Report {
        levels: &[],
        floor: 0,
        refused: 0,
    };
    let two = Report {
        levels: &TWO,
        floor: 12,
        refused: 3,
    };
    let great = Report {
        levels: &[LevelTally {
            capacity: 4294967295,
            hits: 4294967295,
        }],
        floor: 4000000000,
        refused: 65535,
    };
    show(rt, "no level", &mut [b'.'; 20], &none)?;
    show(rt, "no room to spare", &mut [b'.'; 18], &none)?;
    show(rt, "one byte short", &mut [b'.'; 17], &none)?;
    show(rt, "no buffer", &mut [], &two)?;
    show(rt, "two levels", &mut [b'.'; 80], &two)?;
    show(rt, "two levels, short", &mut [b'.'; 73], &two)?;
    show(rt, "great numbers", &mut [b'.'; 80], &great)
}
