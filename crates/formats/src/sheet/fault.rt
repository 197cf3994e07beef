// How the refusal of a sheet is told.
ghost use Rattle.std.specs.Prelude.{◌≡◌};
ghost use Rattle.formats.specs.Sheets.{number_of as numbered};
ghost use Rattle.formats.specs.Seen.{fault_text};
ghost use Rattle.formats.specs.declared.sheet.SheetFault.TheVariants.{Memory};

use crate::sheet::SheetFault;
use refusal::Refusal;
use std::alloc::AllocFailed;
use std::error::Error;
use std::fmt;

impl<T: Drop> From<AllocFailed<T>> for SheetFault {
    ghost from_gives = { λ _ r. r ≡ Memory };

    fn from(_refused: AllocFailed<T>) -> SheetFault {
        SheetFault::Memory
    }
}

impl Refusal for SheetFault {
    ghost number_of = { numbered };

    fn number(self) -> u8 {
        match self {
            SheetFault::Cut(_) => 13,
            SheetFault::Broken(_) => 14,
            SheetFault::Extra(_) => 15,
            SheetFault::Memory => 0,
        }
    }
}

// The number and the offset.
impl fmt::Display for SheetFault {
    ghost output = { fault_text };

    fn fmt<W: fmt::Write>(&self, f: &mut fmt::Formatter<W>) -> fmt::Result {
        let number = self.number();
        match self {
            SheetFault::Cut(at) | SheetFault::Broken(at) | SheetFault::Extra(at) => {
                write!(f, "{number} at {at}")
            }
            SheetFault::Memory => write!(f, "no memory"),
        }
    }
}

impl Error for SheetFault {}
