// What makes a row and what changes one.
ghost use Rattle.std.specs.Prelude.{◌≡◌, ◌<◌, [], ◌∷◌, ◌++◌, length, is_ok, if◌then◌else◌, Some, None, MatchOption};
ghost use Rattle.std.specs.Option.{option_map};
ghost use Rattle.rings.specs.Slots.{last};
ghost use Rattle.row.specs.Entries.{find_entry as sought, without, front, save, tag_of as told, holding, bytes_or as contents, leaving, left};
ghost use Rattle.row.specs.Refusals.{capacity_answer as answered};
ghost use Rattle.row.specs.Rows.{model, entries, Stands, held, above, below};

use crate::capacity::{CapacityFault, check};
use crate::frame::{Frame, Mark, Tag};
use crate::row::Row;
use crate::shelf::Shelf;
use rings::Slot;

impl Row {
    // A row of no entries and capacity 1.
    pub fn new() -> Row
        ensures { model result ≡ record { capacity = 1; entries = [] } }
    {
        Row {
            shelf: Shelf::new(),
            frames: [Frame::new(); 16],
            capacity: 1,
        }
    }

    // Sets the capacity, from 1 to 16, of a row that has no entry.
    pub fn set_capacity(&mut self, capacity: u32) -> Result<(), CapacityFault>
        ensures answer { result ≡ answered capacity (length (entries self.old)) }
        ensures after { model self.new ≡ record { capacity = (if is_ok result then capacity else (model self.old).capacity); entries = entries self.old } }
    {
        check(capacity, self.shelf.len())?;
        self.capacity = capacity;
        Ok(())
    }

    // Copies the entry in a slot into the buffer, and removes it.
    pub fn take_slot(&mut self, slot: Slot, buffer: &mut [u8]) -> Tag
        requires { (Stands self.old slot) × (length buffer.old ≡ 256) }
        ensures answer { result ≡ told (held self.old slot) }
        ensures buffer { buffer.new ≡ (held self.old slot).bytes }
        ensures after { model self.new ≡ holding (without (held self.old slot).number (entries self.old)) (model self.old) }
    {
        let tag = self.tag(slot);
        self.frames[slot.index()].copy_out(buffer);
        self.drop_slot(slot);
        tag
    }

    // Removes the entry in a slot.
    pub fn drop_slot(&mut self, slot: Slot)
        requires { Stands self.old slot }
        ensures { model self.new ≡ holding (without (held self.old slot).number (entries self.old)) (model self.old) }
    {
        self.shelf.release(slot);
    }

    // Copies the entry that names a block into the buffer, and removes it. The buffer is a slice, here and in `eject`, `put` and the
    // frames: the tiers above are lent slices of any length, which they refuse while they run, and a slice that is lent for writing
    // and turned into an array gets no proof.
    pub fn take(&mut self, number: u32, buffer: &mut [u8]) -> Option<Mark>
        requires { length buffer.old ≡ 256 }
        ensures answer { result ≡ option_map (λ e. e.mark) (sought number (entries self.old)) }
        ensures buffer { buffer.new ≡ contents (sought number (entries self.old)) buffer.old }
        ensures after { model self.new ≡ holding (without number (entries self.old)) (model self.old) }
    {
        let slot = self.find(number)?;
        Some(self.take_slot(slot, buffer).mark)
    }

    // Removes the entry that names a block, if there is one.
    pub fn lose(&mut self, number: u32)
        ensures { model self.new ≡ holding (without number (entries self.old)) (model self.old) }
    {
        if let Some(slot) = self.find(number) {
            self.drop_slot(slot);
        }
    }

    // Where the row is full, copies its last entry into the buffer, and removes it.
    pub fn eject(&mut self, buffer: &mut [u8]) -> Option<Tag>
        requires { length buffer.old ≡ 256 }
        ensures answer { result ≡ option_map told (leaving (model self.old)) }
        ensures buffer { buffer.new ≡ contents (leaving (model self.old)) buffer.old }
        ensures after { model self.new ≡ left (model self.old) }
    {
        if self.len() != self.capacity {
            return None;
        }
        let slot = self.last_slot()?;
        Some(self.take_slot(slot, buffer))
    }

    // The slot of the last entry.
    fn last_slot(&self) -> Option<Slot>
        ensures { MatchOption result (entries self.now ≡ []) (λ x. Stands self.now x × (last (entries self.now) ≡ Some (held self.now x)) × (without (held self.now x).number (entries self.now) ≡ front (entries self.now))) }
    {
        self.shelf.last()
    }

    // Takes an entry in front of a row that is not full and has none of that number.
    pub fn put(&mut self, number: u32, bytes: &[u8], mark: Mark)
        requires room { length (entries self.old) < (model self.old).capacity }
        requires fresh { sought number (entries self.old) ≡ None }
        requires whole { length bytes.now ≡ 256 }
        ensures { model self.new ≡ holding (record { number = number; bytes = bytes.now; mark = mark } ∷ entries self.old) (model self.old) }
    {
        let slot = self.shelf.admit(number);
        self.frames[slot.index()].fill(bytes, mark);
    }

    // Marks the entry in a slot saved.
    pub fn mark_saved(&mut self, slot: Slot)
        requires { Stands self.old slot }
        ensures after { model self.new ≡ holding (above self.old slot ++ save (held self.old slot) ∷ below self.old slot) (model self.old) }
        ensures stands { Stands self.new slot }
        ensures held { held self.new slot ≡ save (held self.old slot) }
        ensures above { above self.new slot ≡ above self.old slot }
        ensures below { below self.new slot ≡ below self.old slot }
    {
        self.frames[slot.index()].save();
    }
}
