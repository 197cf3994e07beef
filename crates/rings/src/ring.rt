// The names of rings.
ghost use Rattle.std.specs.Prelude.{◌≡◌, ◌+◌, ◌/◌, ◌^◌, ◌<◌};
ghost use Rattle.rings.specs.Links.{slot_at as slotted};

use crate::slot::SLOTS;
use std::marker::Model;

// One of the sixteen rings. A type of its own beside `Slot`, so that neither is taken for the other.
#[derive(Clone, Copy, PartialEq, Eq, Debug)]
pub struct Ring {
    number: usize,
}

impl Model for Ring {
    ghost use Rattle.std.specs.Prelude.{ℕ, ◌<◌};

    ghost Value = { ℕ };

    ghost view = { λ r. r.number };

    ghost invariant = { λ r. r.number < 16 };

    ghost inverse = { λ n. record { number = n } };
}

impl Ring {
    // The first ring, and the second.
    pub const FIRST: Ring = Ring { number: 0 };

    pub const SECOND: Ring = Ring { number: 1 };

    // The ring of a number from 0 to 15.
    pub fn of(number: usize) -> Option<Ring>
        ensures { result ≡ slotted number }
    {
        (number < SLOTS).then(
            ||
                requires { number < 16 }
            { Ring { number } },
        )
    }

    // The ring that the top four bits of a number name.
    pub(crate) fn of_top_bits(number: u32) -> Ring
        ensures ring { result ≡ number / 2 ^ 28 }
        ensures few { number / 2 ^ 28 < 16 }
    {
        Ring {
            number: (number >> 28) as usize,
        }
    }

    // The place where it begins and ends.
    pub(crate) fn end(self) -> usize
        ensures place { result ≡ 16 + self }
        ensures few { self < 16 }
    {
        SLOTS + self.number
    }
}
