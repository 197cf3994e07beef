// How the refusal of a trace is told.
ghost use Rattle.std.specs.Prelude.{◌≡◌};
ghost use Rattle.formats.specs.Traces.{number_of as numbered};
ghost use Rattle.formats.specs.Shown.{fault_text};

use crate::trace::TraceFault;
use refusal::Refusal;
use std::error::Error;
use std::fmt;

impl Refusal for TraceFault {
    ghost number_of = { numbered };

    fn number(self) -> u8 {
        match self {
            TraceFault::Broken(_) => 16,
        }
    }
}

// The number and the line.
impl fmt::Display for TraceFault {
    ghost output = { fault_text };

    fn fmt<W: fmt::Write>(&self, f: &mut fmt::Formatter<W>) -> fmt::Result {
        let number = self.number();
        let TraceFault::Broken(line) = self;
        write!(f, "{number} at {line}")
    }
}

impl Error for TraceFault {}
