// Why the layouts of two sheets were not compared.
ghost use Rattle.std.specs.Prelude.{◌≡◌};
ghost use Rattle.comparing.specs.Faults.{of_compare as converted, fault_text};
ghost use Rattle.comparing.specs.declared.fault.LayoutFault.TheVariants.{Memory};

use certificate::CompareFault;
use formats::SheetFault;
use refusal::Refusal;
use std::alloc::AllocError;
use std::error::Error;
use std::fmt;

// Why the layouts of two sheets were not compared.
#[derive(Clone, Copy, Debug)]
pub enum LayoutFault {
    // The first sheet is refused.
    First(SheetFault),
    // The second sheet is refused.
    Second(SheetFault),
    // The sheets list different images.
    Images,
    // The layouts cannot be compared.
    Compare(CompareFault),
    // There is no memory for the lists or for copies of the images.
    Memory,
}

impl fmt::Display for LayoutFault {
    ghost output = { fault_text };

    fn fmt<W: fmt::Write>(&self, f: &mut fmt::Formatter<W>) -> fmt::Result {
        match self {
            LayoutFault::First(fault) => write!(f, "first sheet {fault}"),
            LayoutFault::Second(fault) => write!(f, "second sheet {fault}"),
            LayoutFault::Images => write!(f, "the sheets list different images"),
            LayoutFault::Compare(CompareFault::First(fault)) => {
                write!(f, "first layout {}", fault.number())
            }
            LayoutFault::Compare(CompareFault::Second(fault)) => {
                write!(f, "second layout {}", fault.number())
            }
            LayoutFault::Compare(CompareFault::Devices) => {
                write!(f, "the sheets describe different devices")
            }
            LayoutFault::Compare(CompareFault::Memory) | LayoutFault::Memory => {
                write!(f, "no memory")
            }
        }
    }
}

impl Error for LayoutFault {}

impl From<CompareFault> for LayoutFault {
    ghost from_gives = { λ f r. r ≡ converted f };

    fn from(fault: CompareFault) -> LayoutFault {
        match fault {
            CompareFault::Memory => LayoutFault::Memory,
            _ => LayoutFault::Compare(fault),
        }
    }
}

impl From<AllocError> for LayoutFault {
    ghost from_gives = { λ _ r. r ≡ Memory };

    fn from(_refused: AllocError) -> LayoutFault {
        LayoutFault::Memory
    }
}
