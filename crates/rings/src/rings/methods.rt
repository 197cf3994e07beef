// What rings do.
ghost use Rattle.std.specs.Prelude.{◌≡◌, ℕ, ◌+◌, ◌<◌, true, [], ◌∷◌, length, if◌then◌else◌, nat_eq, slice_index, slice_index_or};
ghost use Rattle.rings.specs.Models.{ring, fronted};
ghost use Rattle.rings.specs.Links.{slot_at as slotted};
ghost use Rattle.rings.specs.Places.{itself, nexts, prevs};
ghost use Rattle.rings.specs.Left.{left_of};
ghost use Rattle.rings.specs.Slots.{member, without, first, last, after};

use crate::links::{Link, behind, put_in, take_out};
use crate::ring::Ring;
use crate::rings::Rings;
use crate::slot::Slot;
use crate::walk::Slots;

impl Rings {
    // Rings that are all empty.
    pub fn new() -> Rings
        ensures { (q : ℕ) → q < 16 → ring result q ≡ [] }
    {
        Rings { links: unlinked() }
    }

    // Takes a slot out of the ring that it is in, if any.
    pub fn remove(&mut self, x: Slot)
        ensures rings { (q : ℕ) → q < 16 → ring self.new q ≡ without x (ring self.old q) }
        ensures alone { (slice_index (nexts self.new.links) x ≡ x) × (slice_index (prevs self.new.links) x ≡ x) }
    {
        take_out(&mut self.links, x.index());
    }

    // Puts a slot, wherever it was, in front of a ring.
    pub fn move_to_front(&mut self, x: Slot, r: Ring)
        ensures { (q : ℕ) → q < 16 → ring self.new q ≡ fronted x r q (ring self.old q) }
    {
        self.remove(x);
        self.put_front(x, r);
    }

    // Puts a slot that is in no ring in front of a ring.
    fn put_front(&mut self, x: Slot, r: Ring)
        requires { (slice_index (nexts self.old.links) x ≡ x) × (slice_index (prevs self.old.links) x ≡ x) }
        ensures { (q : ℕ) → q < 16 → ring self.new q ≡ (if nat_eq q r then x ∷ ring self.old q else ring self.old q) }
    {
        let end = r.end();
        let first = behind(&self.links, end);
        put_in(&mut self.links, x.index(), end, first);
    }

    // The slots of a ring from its first to its last.
    #[tactic(auto, using(crate::proofs::Walks::met_first, crate::proofs::Walks::ends_first))]
    pub fn slots(&self, r: Ring) -> Slots
        ensures { left_of result ≡ ring self.now r }
    {
        Slots::from(&self.links, behind(&self.links, r.end()))
    }

    // The first slot of a ring.
    pub fn first(&self, r: Ring) -> Option<Slot>
        ensures { result ≡ first (ring self.now r) }
    {
        Slot::at(behind(&self.links, r.end()))
    }

    // The last slot of a ring.
    pub fn last(&self, r: Ring) -> Option<Slot>
        ensures { result ≡ last (ring self.now r) }
    {
        Slot::at(self.before(r.end()))
    }

    // The slot behind a slot in the ring that it is in.
    pub fn next(&self, x: Slot) -> Option<Slot>
        ensures { (q : ℕ) → q < 16 → member x (ring self.now q) ≡ true → result ≡ first (after x (ring self.now q)) }
    {
        Slot::at(self.behind(x.index()))
    }

    // The place before a place: before the end of a ring, the ring's last.
    fn before(&self, place: usize) -> usize
        requires { place < 32 }
        ensures { (r : ℕ) → r < 16 → place ≡ 16 + r → slotted result ≡ last (ring self.now r) }
    {
        self.links[place].prev
    }

    // The place behind a place: behind a slot of a ring, the next of that ring.
    fn behind(&self, place: usize) -> usize
        requires { place < 32 }
        ensures { (q : ℕ) → q < 16 → member place (ring self.now q) ≡ true → slotted result ≡ first (after place (ring self.now q)) }
    {
        behind(&self.links, place)
    }
}

// Links of every place to itself: no slot is in a ring.
fn unlinked() -> [Link; 32]
    ensures wide { length result ≡ 32 }
    ensures own { (i : ℕ) → i < 32 → slice_index_or result i (itself 0) ≡ itself i }
{
    std::array::from_fn(|i| Link { next: i, prev: i })
}
