// What is printed of a comparison that was refused.
ghost use Rattle.certificate.specs.Faults.{fault_text};

use crate::weighing::CompareFault;
use refusal::Refusal;
use std::error::Error;
use std::fmt;

impl fmt::Display for CompareFault {
    ghost output = { fault_text };

    fn fmt<W: fmt::Write>(&self, f: &mut fmt::Formatter<W>) -> fmt::Result {
        match self {
            CompareFault::First(fault) => write!(f, "the first by {}", fault.number()),
            CompareFault::Second(fault) => write!(f, "the second by {}", fault.number()),
            CompareFault::Devices => write!(f, "the devices differ"),
            CompareFault::Memory => write!(f, "no memory"),
        }
    }
}

impl Error for CompareFault {}
