// What tiers answer and why they refuse.
ghost use Rattle.std.specs.Prelude.{◌≡◌};
ghost use Rattle.tier.specs.Demotions.{raised as higher, told_drop};
ghost use Rattle.tier.specs.Lifts.{lifted_deeper};
ghost use Rattle.tier.specs.Refusals.{lift_number_of, dropped_number_of, fault_raised, dropped_text};

use crate::victim::Victim;
use device::DeviceFault;
use refusal::Refusal;
use row::Mark;
use std::error::Error;
use std::fmt;

// Why a lift was refused.
#[derive(Clone, Copy, PartialEq, Eq, Debug)]
pub enum LiftFault {
    // The buffer is not 256 bytes long.
    Length,
}

// Where a lifted block was: its level, counted from 1, and its mark.
#[derive(Clone, Copy, PartialEq, Eq, Debug)]
pub struct Lifted {
    pub level: u8,
    pub mark: Mark,
}

impl Lifted {
    // The same, seen from one level higher.
    pub fn deeper(self) -> Lifted
        ensures { result ≡ lifted_deeper self }
    {
        Lifted {
            level: self.level.saturating_add(1),
            mark: self.mark,
        }
    }
}

// A block that the stored blocks refused: its number, their own refusal,
// and the level that last held it, counted from the top of the tier called, or 0 for the floor itself.
#[derive(Clone, Copy, PartialEq, Eq, Debug)]
pub struct Dropped {
    pub block: u32,
    pub fault: DeviceFault,
    pub level: u8,
}

impl Refusal for LiftFault {
    ghost number_of = { lift_number_of };

    fn number(self) -> u8 {
        match self {
            LiftFault::Length => 1,
        }
    }
}

impl Refusal for Dropped {
    ghost number_of = { dropped_number_of };

    // The number inside it is the fault's own.
    fn number(self) -> u8 {
        5
    }
}

// The block and its refusal, by number.
impl fmt::Display for Dropped {
    ghost output = { dropped_text };

    fn fmt<W: fmt::Write>(&self, f: &mut fmt::Formatter<W>) -> fmt::Result {
        write!(
            f,
            "block {}, inside {}, level {}",
            self.block,
            self.fault.number(),
            self.level
        )
    }
}

impl Error for Dropped {}

impl Dropped {
    // The same, seen from one level higher.
    pub fn raised(self) -> Dropped
        ensures { result ≡ told_drop (higher self) }
    {
        Dropped {
            block: self.block,
            fault: self.fault,
            level: self.level.saturating_add(1),
        }
    }
}

// Why a demotion was refused: a wrong buffer gives the token back.
pub enum DemoteFault {
    // The buffer is not 256 bytes long.
    Length(Victim),
    // The stored blocks refused a block that was handed down.
    Dropped(Dropped),
}

impl DemoteFault {
    // The same, seen from one level higher.
    pub fn raised(self) -> DemoteFault
        ensures { result ≡ fault_raised self }
    {
        match self {
            DemoteFault::Dropped(dropped) => DemoteFault::Dropped(dropped.raised()),
            length => length,
        }
    }
}
