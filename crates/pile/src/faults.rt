// Why a pile refused.
ghost use Rattle.std.specs.Prelude.{◌≡◌};
ghost use Rattle.pile.specs.Refusals.{number_of as numbered, demotion_fault};
ghost use Rattle.pile.specs.Mounts.{mount_number_of as mount_numbered};
ghost use Rattle.pile.specs.declared.faults.PileFault.TheVariants.{Device as OfDevice, Dropped as OfDropped};

use device::DeviceFault;
use refusal::Refusal;
use tier::{DemoteFault, Dropped};

// Why a read, a write or a sync was refused.
#[derive(Clone, Copy, PartialEq, Eq, Debug)]
pub enum PileFault {
    // The stored blocks have no such block for this buffer.
    Device(DeviceFault),
    // The pile has had 4,000,000,000 touches.
    Full,
    // A block that was handed down or synced was refused below.
    Dropped(Dropped),
}

impl Refusal for PileFault {
    ghost number_of = { numbered };

    fn number(self) -> u8 {
        match self {
            PileFault::Device(fault) => fault.number(),
            PileFault::Full => 4,
            PileFault::Dropped(dropped) => dropped.number(),
        }
    }
}

impl From<DeviceFault> for PileFault {
    ghost from_gives = { λ f r. r ≡ OfDevice f };

    fn from(fault: DeviceFault) -> PileFault {
        PileFault::Device(fault)
    }
}

impl From<Dropped> for PileFault {
    ghost from_gives = { λ d r. r ≡ OfDropped d };

    fn from(dropped: Dropped) -> PileFault {
        PileFault::Dropped(dropped)
    }
}

// What a refused demotion is to a pile, whose blocks are whole, so that the stored blocks alone refuse one. A function of this crate
// and no `From`: by that a `?` could forget a block in hand, anywhere.
pub(crate) fn refused_demotion(fault: DemoteFault) -> PileFault
    ensures { result ≡ demotion_fault fault }
{
    match fault {
        DemoteFault::Length(victim) => {
            let _ = victim.open();
            PileFault::Device(DeviceFault::Length)
        }
        DemoteFault::Dropped(dropped) => PileFault::Dropped(dropped),
    }
}

// Why a tier was not mounted.
#[derive(Clone, Copy, PartialEq, Eq, Debug)]
pub enum MountFault {
    // It has an entry.
    Entries,
    // It has more than 8 levels.
    Levels,
}

impl Refusal for MountFault {
    ghost number_of = { mount_numbered };

    fn number(self) -> u8 {
        match self {
            MountFault::Entries => 6,
            MountFault::Levels => 7,
        }
    }
}
