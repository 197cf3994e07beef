// What a row tells of itself.
ghost use Rattle.std.specs.Prelude.{◌≡◌, [], ◌∷◌, ◌++◌, length, Some, None, MatchOption};
ghost use Rattle.std.specs.Option.{option_map};
ghost use Rattle.row.specs.Entries.{find_entry as sought, without, tag_of as told, at_place as placed};
ghost use Rattle.row.specs.Rows.{model, entries, Stands, Standing, held, above, below, passed, coming};

use crate::frame::Tag;
use crate::row::Row;
use rings::Slot;

impl Row {
    // How many entries there can be.
    pub fn capacity(&self) -> u32
        ensures { result ≡ (model self.now).capacity }
    {
        self.capacity
    }

    // How many entries there are.
    pub fn len(&self) -> u32
        ensures { result ≡ length (entries self.now) }
    {
        self.shelf.len()
    }

    // The slot of the entry that names a block, by one look into the index.
    pub fn find(&self, number: u32) -> Option<Slot>
        ensures { MatchOption result ((sought number (entries self.now) ≡ None) × (without number (entries self.now) ≡ entries self.now)) (λ x. Stands self.now x × ((held self.now x).number ≡ number) × (sought number (entries self.now) ≡ Some (held self.now x))) }
    {
        self.shelf.find(number)
    }

    // The number and the mark of the entry in a slot. That an entry stands there is asked and no part of the slot's type, since the
    // row changes while slots stay what they are.
    pub fn tag(&self, slot: Slot) -> Tag
        requires { Stands self.now slot }
        ensures { result ≡ told (held self.now slot) }
    {
        Tag {
            number: self.shelf.number(slot),
            mark: self.frames[slot.index()].mark,
        }
    }

    // The bytes of the entry in a slot.
    pub fn bytes(&self, slot: Slot) -> &[u8]
        requires { Stands self.now slot }
        ensures { result.now ≡ (held self.now slot).bytes }
    {
        &self.frames[slot.index()].bytes
    }

    // The slot of the first entry.
    pub fn first_slot(&self) -> Option<Slot>
        ensures standing { Standing self.now result }
        ensures passed { passed self.now result ≡ [] }
        ensures coming { coming self.now result ≡ entries self.now }
    {
        self.shelf.first()
    }

    // The slot of the entry behind the one in a slot. Who marks entries on the way walks by this: an iterator would lend the
    // row out.
    pub fn next_slot(&self, slot: Slot) -> Option<Slot>
        requires { Stands self.now slot }
        ensures standing { Standing self.now result }
        ensures passed { passed self.now result ≡ above self.now slot ++ held self.now slot ∷ [] }
        ensures coming { coming self.now result ≡ below self.now slot }
    {
        self.shelf.next(slot)
    }

    // The number and the mark of the entry at a place, counted from 1.
    pub fn entry(&self, place: u32) -> Option<Tag>
        ensures { result ≡ option_map told (placed place (entries self.now)) }
    {
        let slot = self.shelf.at(place)?;
        Some(self.tag(slot))
    }
}
