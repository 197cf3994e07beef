// Why nothing was replayed.
ghost use Rattle.std.specs.Prelude.{◌≡◌};
ghost use Rattle.replaying.specs.Faults.{number_of as numbered, fault_text, of_sheet as converted};
ghost use Rattle.replaying.specs.declared.fault.ReplayFault.TheVariants.{Trace as OfTrace, Memory};

use formats::{SheetFault, TraceFault};
use refusal::Refusal;
use std::alloc::AllocError;
use std::error::Error;
use std::fmt;

// Why a sheet and a trace were not replayed. Nothing has changed then.
#[derive(Clone, Copy, Debug)]
pub enum ReplayFault {
    Sheet(SheetFault),
    Trace(TraceFault),
    // There is no memory for the lists.
    Memory,
}

impl Refusal for ReplayFault {
    ghost number_of = { numbered };

    fn number(self) -> u8 {
        match self {
            ReplayFault::Sheet(fault) => fault.number(),
            ReplayFault::Trace(fault) => fault.number(),
            ReplayFault::Memory => 0,
        }
    }
}

// What is refused, by its number and the place of the first fault.
impl fmt::Display for ReplayFault {
    ghost output = { fault_text };

    fn fmt<W: fmt::Write>(&self, f: &mut fmt::Formatter<W>) -> fmt::Result {
        match self {
            ReplayFault::Sheet(fault) => write!(f, "sheet {fault}"),
            ReplayFault::Trace(fault) => write!(f, "trace {fault}"),
            ReplayFault::Memory => write!(f, "no memory"),
        }
    }
}

impl Error for ReplayFault {}

impl From<SheetFault> for ReplayFault {
    ghost from_gives = { λ f r. r ≡ converted f };

    fn from(fault: SheetFault) -> ReplayFault {
        match fault {
            SheetFault::Memory => ReplayFault::Memory,
            _ => ReplayFault::Sheet(fault),
        }
    }
}

impl From<TraceFault> for ReplayFault {
    ghost from_gives = { λ f r. r ≡ OfTrace f };

    fn from(fault: TraceFault) -> ReplayFault {
        ReplayFault::Trace(fault)
    }
}

impl From<AllocError> for ReplayFault {
    ghost from_gives = { λ _ r. r ≡ Memory };

    fn from(_error: AllocError) -> ReplayFault {
        ReplayFault::Memory
    }
}
