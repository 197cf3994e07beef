// What a shelf does.
ghost use Rattle.std.specs.Prelude.{◌≡◌, ℕ, ◌<◌, ◌≤◌, true, false, List, [], ◌∷◌, ◌++◌, length, if◌then◌else◌, Some, None, MatchOption, ◌≢◌, nat_eq, slice_set};
ghost use Rattle.std.specs.Option.{option_map};
ghost use Rattle.rings.specs.Slots.{member, without as unlisted, first, last, after};
ghost use Rattle.rings.specs.Models.{ring};
ghost use Rattle.row.specs.declared.frame.Frame.{Frame};
ghost use Rattle.row.specs.Entries.{without, at_place as placed};
ghost use Rattle.row.specs.Held.{entries_in as entries, entry_in as held, above_in as above, below_in as below, passed_in as passed, coming_in as coming, OnIf as Standing, Found, Last};
ghost use Rattle.row.specs.Orders.{order, key};

use crate::shelf::Shelf;
use rings::{Index, Ring, Rings, Slot};

// The ring of the slots that have numbers, latest first, and the ring of those that have none.
const ORDER: Ring = Ring::FIRST;

const FREE: Ring = Ring::SECOND;

impl Shelf {
    // A shelf of no numbers.
    pub fn new() -> Shelf
        ensures order { order result ≡ [] }
        ensures keys { (x : ℕ) → x < 16 → key result x ≡ None }
        ensures entries { (frames : List Frame) → entries result frames ≡ [] }
    {
        Shelf {
            index: Index::new(),
            places: all_free(),
            len: 0,
        }
    }

    // How many slots have numbers.
    pub fn len(&self) -> u32
        ensures order { result ≡ length (order self.now) }
        ensures entries { (frames : List Frame) → result ≡ length (entries self.now frames) }
    {
        self.len
    }

    // The slot that has a number.
    pub fn find(&self, number: u32) -> Option<Slot>
        ensures slot { MatchOption result ((x : ℕ) → x < 16 → key self.now x ≢ Some number) (λ x. (x < 16) × (key self.now x ≡ Some number)) }
        ensures entries { (frames : List Frame) → Found self.now frames number result }
    {
        self.index.find(number)
    }

    // The number of a slot in order. That it is in order is asked, here and below, since the order changes and the slot does not.
    pub fn number(&self, x: Slot) -> u32
        requires { member x (order self.now) ≡ true }
        ensures { key self.now x ≡ Some result }
    {
        self.index.number(x)
    }

    // The first slot in order.
    pub fn first(&self) -> Option<Slot>
        ensures slot { result ≡ first (order self.now) }
        ensures standing { Standing self.now result }
        ensures passed { (frames : List Frame) → passed self.now frames result ≡ [] }
        ensures coming { (frames : List Frame) → coming self.now frames result ≡ entries self.now frames }
    {
        self.front()
    }

    // The same, of the order alone.
    fn front(&self) -> Option<Slot>
        ensures { result ≡ first (order self.now) }
    {
        self.places.first(ORDER)
    }

    // The last slot in order.
    pub fn last(&self) -> Option<Slot>
        ensures slot { result ≡ last (order self.now) }
        ensures entries { (frames : List Frame) → Last self.now frames result }
    {
        self.places.last(ORDER)
    }

    // The slot behind a slot in order.
    pub fn next(&self, x: Slot) -> Option<Slot>
        requires { member x (order self.now) ≡ true }
        ensures slot { result ≡ first (after x (order self.now)) }
        ensures standing { Standing self.now result }
        ensures passed { (frames : List Frame) → passed self.now frames result ≡ above self.now frames x ++ held self.now frames x ∷ [] }
        ensures coming { (frames : List Frame) → coming self.now frames result ≡ below self.now frames x }
    {
        self.behind(x)
    }

    // The same, of the order alone.
    fn behind(&self, x: Slot) -> Option<Slot>
        requires { member x (order self.now) ≡ true }
        ensures { result ≡ first (after x (order self.now)) }
    {
        self.places.next(x)
    }

    // The slot at a place in order, counted from 1.
    pub fn at(&self, place: u32) -> Option<Slot>
        ensures standing { Standing self.now result }
        ensures entries { (frames : List Frame) → placed place (entries self.now frames) ≡ option_map (held self.now frames) result }
    {
        let passed = place.checked_sub(1)?;
        self.places.slots(ORDER).nth(passed as usize)
    }

    // Takes the number of a slot away.
    pub fn release(&mut self, x: Slot)
        requires { member x (order self.old) ≡ true }
        ensures order { order self.new ≡ unlisted x (order self.old) }
        ensures keys { (y : ℕ) → y < 16 → key self.new y ≡ (if nat_eq y x then None else key self.old y) }
        ensures fewer { length (order self.new) ≤ length (order self.old) }
        ensures entries { (frames : List Frame) → entries self.new frames ≡ without (held self.old frames x).number (entries self.old frames) }
    {
        self.index.remove(x);
        self.places.move_to_front(x, FREE);
        self.len -= 1;
    }

    // Gives a number that no slot has to a slot that has none, which then is the first in order.
    pub fn admit(&mut self, number: u32) -> Slot
        requires room { length (order self.old) < 16 }
        requires fresh { (y : ℕ) → y < 16 → key self.old y ≢ Some number }
        ensures slot { (result < 16) × (member result (order self.old) ≡ false) }
        ensures order { order self.new ≡ result ∷ order self.old }
        ensures keys { (y : ℕ) → y < 16 → key self.new y ≡ (if nat_eq y result then Some number else key self.old y) }
        ensures entries { (frames : List Frame) (frame : Frame) → length frames ≡ 16 → entries self.new (slice_set frames result frame) ≡ record { number = number; bytes = frame.bytes; mark = frame.mark } ∷ entries self.old frames }
    {
        let x = self.spare();
        self.index.insert(number, x);
        self.places.move_to_front(x, ORDER);
        self.len += 1;
        x
    }

    // A slot that has no number.
    fn spare(&self) -> Slot
        requires { length (order self.now) < 16 }
        ensures { (result < 16) × (member result (order self.now) ≡ false) × (key self.now result ≡ None) }
    {
        self.places.first(FREE).unwrap()
    }
}

// Places of which every slot is free.
fn all_free() -> Rings
    ensures order { ring result 0 ≡ [] }
    ensures free { (x : ℕ) → x < 16 → member x (ring result 1) ≡ true }
{
    let mut places = Rings::new();
    for x in Slot::all() {
        places.move_to_front(x, FREE);
    }
    places
}
