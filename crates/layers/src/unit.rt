// The unit of a stripe.
ghost use Rattle.std.specs.Prelude.{◌≡◌, ℕ, ◌<◌, ◌≤◌};
ghost use Rattle.layers.specs.Stripes.{unit_number_of as numbered, unit_of};

use refusal::Refusal;
use std::marker::Model;

// Why a number is no unit.
#[derive(Clone, Copy, PartialEq, Eq, Debug)]
pub enum UnitFault {
    // It is outside 1 to 64.
    Outside,
}

impl Refusal for UnitFault {
    ghost number_of = { numbered };

    fn number(self) -> u8 {
        match self {
            UnitFault::Outside => 9,
        }
    }
}

// How many blocks a stripe takes from one device before it takes from the other: 1 to 64. A clause sees the number.
#[derive(Clone, Copy, PartialEq, Eq, Debug)]
pub struct Unit {
    blocks: u32,
}

impl Model for Unit {
    ghost use Rattle.std.specs.Prelude.{ℕ, ◌<◌, ◌≤◌};

    ghost Value = { ℕ };

    ghost view = { λ u. u.blocks };

    ghost invariant = { λ u. (0 < u.blocks) × (u.blocks ≤ 64) };

    ghost inverse = { λ n. record { blocks = n } };
}

impl Unit {
    // One block from each device in turn.
    pub const ONE: Unit = Unit { blocks: 1 };

    // How many blocks they are.
    pub fn blocks(self) -> u32
        ensures number { result ≡ self }
        ensures range { (0 < self) × (self ≤ 64) }
    {
        self.blocks
    }
}

impl TryFrom<u32> for Unit {
    type Error = UnitFault;

    ghost try_from_gives = { λ n r. r ≡ unit_of n };

    fn try_from(blocks: u32) -> Result<Unit, UnitFault> {
        match blocks {
            1..=64 => Ok(Unit { blocks }),
            _ => Err(UnitFault::Outside),
        }
    }
}
