// A line for each trace: what its lines say, or the refusal and the line.
use formats::{Line, Lines, TraceFault, fill_in, judge, number_in};
use refusal::Refusal;
use std::io;

const TRACES: &[(&str, &[u8])] = &[
    ("empty trace", b""),
    ("first line alone", b"demote-trace 1\n"),
    ("first line without its end", b"demote-trace 1"),
    ("another first line", b"demote-trace 2\nS\n"),
    ("blank after the first line", b"demote-trace 1 \n"),
    (
        "lawful trace",
        b"demote-trace 1\nR 0\nR 65535\nW 7 a0\nW 10 0f\nS\n",
    ),
    ("number 65536", b"demote-trace 1\nR 65536\n"),
    ("leading zero", b"demote-trace 1\nR 07\n"),
    ("long number", b"demote-trace 1\nR 100000000000000000000\n"),
    ("no number", b"demote-trace 1\nR \n"),
    ("not a number", b"demote-trace 1\nR 1x\n"),
    ("two blanks", b"demote-trace 1\nR  7\n"),
    ("blank after", b"demote-trace 1\nR 7 \n"),
    ("blank before", b"demote-trace 1\n R 7\n"),
    ("small letter", b"demote-trace 1\nr 7\n"),
    ("no byte", b"demote-trace 1\nW 7\n"),
    ("one digit", b"demote-trace 1\nW 7 a\n"),
    ("three digits", b"demote-trace 1\nW 7 a0b\n"),
    ("upper case", b"demote-trace 1\nW 7 A0\n"),
    ("no digit", b"demote-trace 1\nW 7 g0\n"),
    ("sync with a number", b"demote-trace 1\nS 1\n"),
    ("carriage return", b"demote-trace 1\nS\r\n"),
    ("empty line", b"demote-trace 1\nS\n\nS\n"),
    ("last line without its end", b"demote-trace 1\nS\nR 1"),
    ("two broken lines", b"demote-trace 1\nS\nQ\nS\nR\n"),
];

fn show_line(rt: &HostRuntime, line: Line) -> io::Result<()> {
    match line {
        Line::Read { number } => print!(rt; " read {}", number_in(number).unwrap_or(0)),
        Line::Write { number, fill } => print!(rt;
            " write {} {}",
            number_in(number).unwrap_or(0),
            fill_in(fill).unwrap_or(0)
        ),
        Line::Sync => print!(rt; " sync"),
    }
}

fn show(rt: &HostRuntime, name: &str, trace: &[u8]) -> io::Result<()> {
    match judge(trace) {
        Ok(body) => {
            print!(rt; "{name}:")?;
            for line in Lines::new(body) {
                show_line(rt, line)?;
            }
            println!(rt; "")
        }
        Err(fault) => {
            let TraceFault::Broken(line) = fault;
            println!(rt; "{name}: {} in line {line}", fault.number())
        }
    }
}

// As for sheets: one loop for both would be handed the table and the function, and be no shorter.
pub fn show_all(rt: &HostRuntime) -> io::Result<()> {
    for (name, trace) in TRACES {
        show(rt, name, trace)?;
    }
    Ok(())
}
