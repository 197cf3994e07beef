// Slots: what stands in rings.
ghost use Rattle.std.specs.Prelude.{◌≡◌, ℕ, ◌<◌, length, slice_index_or};
ghost use Rattle.rings.specs.Links.{slot_at as slotted};

use std::marker::Model;

// How many slots there are.
pub const SLOTS: usize = 16;

// One of the sixteen slots.
#[derive(Clone, Copy, PartialEq, Eq, Debug)]
pub struct Slot {
    pub(crate) index: usize,
}

impl Model for Slot {
    ghost use Rattle.std.specs.Prelude.{ℕ, ◌<◌};

    ghost Value = { ℕ };

    ghost view = { λ s. s.index };

    ghost invariant = { λ s. s.index < 16 };

    ghost inverse = { λ n. record { index = n } };
}

impl Slot {
    // The slot at a place, or none where a ring begins and ends.
    pub(crate) fn at(place: usize) -> Option<Slot>
        ensures { result ≡ slotted place }
    {
        (place < SLOTS).then(
            ||
                requires { place < 16 }
            { Slot { index: place } },
        )
    }

    // Every slot, in the order of their numbers.
    pub fn all() -> [Slot; 16]
        ensures wide { length result ≡ 16 }
        ensures own { (i d : ℕ) → i < 16 → slice_index_or result i d ≡ i }
    {
        std::array::from_fn(
            |index|
                requires { index < 16 }
            { Slot { index } },
        )
    }

    // Its number, from 0 to 15.
    pub fn index(self) -> usize
        ensures same { result ≡ self }
        ensures few { self < 16 }
    {
        self.index
    }
}
