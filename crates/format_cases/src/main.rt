// Sheets, traces and reports, lawful and damaged, and what the readers and the writer answer.
#![tactic(auto)]

mod reports;
mod sheets;
mod traces;

use std::io;

fn main(rt: HostRuntime) -> io::Result<()> {
    sheets::show_all(&rt)?;
    traces::show_all(&rt)?;
    reports::show_all(&rt)
}
