// A line of a trace, and why a trace is refused.

// A lawful line. Its fields are parts of the trace.
#[derive(Clone, Copy, Debug)]
pub enum Line<'a> {
    Read { number: &'a [u8] },
    Write { number: &'a [u8], fill: &'a [u8] },
    Sync,
}

// Why a trace was refused.
#[derive(Clone, Copy, Debug)]
pub enum TraceFault {
    // The line of this number, counted from 1, breaks a rule.
    Broken(usize),
}

mod fault;
mod fields;
mod judging;
mod lines;

pub use fields::{fill_in, number_in};
pub use judging::{examples_hold, judge};
pub use lines::{Lines, first_line};
