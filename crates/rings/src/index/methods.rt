// What an index does.
ghost use Rattle.std.specs.Prelude.{◌≡◌, ℕ, ◌<◌, true, is_some, if◌then◌else◌, Some, None, MatchOption, ◌≢◌, nat_eq, slice_index};
ghost use Rattle.rings.specs.Buckets.{bucket, sought};
ghost use Rattle.rings.specs.Keys.{key_of as keyed};
ghost use Rattle.rings.specs.Models.{ring};

use crate::index::Index;
use crate::ring::Ring;
use crate::rings::Rings;
use crate::slot::Slot;

// The bucket of a number: the top four bits of its product with a constant that spreads neighbours apart.
fn bucket_of(number: u32) -> Ring
    ensures { result ≡ bucket number }
{
    Ring::of_top_bits(number.wrapping_mul(2654435769))
}

impl Index {
    // An index of nothing.
    pub fn new() -> Index
        ensures { (x : ℕ) → x < 16 → keyed result x ≡ None }
    {
        let keys = [0; 16];
        Index {
            rings: Rings::new(),
            keys,
        }
    }

    // A slot that is filed under `number`.
    pub fn find(&self, number: u32) -> Option<Slot>
        ensures { MatchOption result ((x : ℕ) → x < 16 → keyed self.now x ≢ Some number) (λ x. (x < 16) × (keyed self.now x ≡ Some number)) }
    {
        self.seek(self.bucket_for(number), number)
    }

    // The bucket in which a search for `number` finds the slot that is filed under it.
    fn bucket_for(&self, number: u32) -> Ring
        ensures { MatchOption (sought self.now.keys number (ring self.now.rings result)) ((x : ℕ) → x < 16 → keyed self.now x ≢ Some number) (λ x. (x < 16) × (keyed self.now x ≡ Some number)) }
    {
        bucket_of(number)
    }

    // The first slot of a bucket that has a number.
    fn seek(&self, bucket: Ring, number: u32) -> Option<Slot>
        ensures { result ≡ sought self.now.keys number (ring self.now.rings bucket) }
    {
        self.rings.slots(bucket).find(|x| self.has(*x, number))
    }

    // Whether a slot has a number.
    fn has(&self, x: Slot, number: u32) -> bool
        ensures { result ≡ nat_eq (slice_index self.now.keys x) number }
    {
        number == self.keys[x.index()]
    }

    // The number that a slot is filed under.
    #[tactic(auto, unfolding(crate::specs::Buckets::key_in))]
    pub fn number(&self, x: Slot) -> u32
        ensures { is_some (keyed self.now x) ≡ true → keyed self.now x ≡ Some result }
    {
        self.keys[x.index()]
    }

    // Files a slot under a number, wherever it was filed before.
    pub fn insert(&mut self, number: u32, x: Slot)
        ensures { (y : ℕ) → y < 16 → keyed self.new y ≡ (if nat_eq y x then Some number else keyed self.old y) }
    {
        self.file(x, Some(number));
    }

    // Takes a slot out of the index.
    pub fn remove(&mut self, x: Slot)
        ensures { (y : ℕ) → y < 16 → keyed self.new y ≡ (if nat_eq y x then None else keyed self.old y) }
    {
        self.file(x, None);
    }

    // Files a slot under a number or under none, wherever it was filed before.
    fn file(&mut self, slot: Slot, number: Option<u32>)
        ensures { (y : ℕ) → y < 16 → keyed self.new y ≡ (if nat_eq y slot then number else keyed self.old y) }
    {
        match number {
            Some(n) => {
                self.rings.move_to_front(slot, bucket_of(n));
                self.keys[slot.index()] = n;
            }
            None => self.rings.remove(slot),
        }
    }
}
