// What tallies do.
ghost use Rattle.std.specs.Prelude.{◌≡◌, ◌<◌, ◌≤◌, length, replicate, slice_get};
ghost use Rattle.tier.specs.Questions.{nth};
ghost use Rattle.pile.specs.Piles.{add_at as raised};
ghost use Rattle.pile.specs.Recency.{total};
ghost use Rattle.pile.specs.Tallies.{hits_of as served, sum_of as summed, hits_with as now_served, floor_with as now_missed};

use crate::tallies::{LEVELS, Tallies};

// The sum of some hits.
fn sum(hits: &[u32]) -> u64
    requires { length hits.now ≤ 8 }
    ensures all { result ≡ total hits.now }
    ensures few { result ≤ 34359738360 }
{
    // A loop: of the library's `sum` the search does not find that it is this total, nor that it is small.
    let mut all = 0;
    for n in hits {
        all += u64::from(*n);
    }
    all
}

// The hits at a place counted from 0.
fn hits_from_zero(hits: &[u32], place: usize) -> Option<u32>
    ensures { result ≡ slice_get hits.now place }
{
    hits.get(place).copied()
}

// The hits at a place counted from 1.
fn hits_at(hits: &[u32], level: usize) -> Option<u32>
    ensures { result ≡ nth hits.now level }
{
    hits_from_zero(hits, level.checked_sub(1)?)
}

impl Tallies {
    // No touches yet of so many levels.
    pub(crate) fn new(levels: usize) -> Tallies
        requires { levels ≤ 8 }
        ensures hits { served result ≡ replicate levels 0 }
        ensures floor { result.floor ≡ 0 }
    {
        Tallies {
            hits: [0; LEVELS],
            levels,
            floor: 0,
        }
    }

    // How many levels there are.
    pub fn levels(&self) -> usize
        ensures { result ≡ length (served self.now) }
    {
        self.levels
    }

    // How many touches each level served, top first.
    pub fn by_level(&self) -> &[u32]
        ensures { result.now ≡ served self.now }
    {
        &self.hits[..self.levels]
    }

    // How many touches a level served; levels count from 1.
    pub fn hits(&self, level: usize) -> Option<u32>
        ensures { result ≡ nth (served self.now) level }
    {
        hits_at(self.by_level(), level)
    }

    // How many touches no level served.
    pub fn floor(&self) -> u32
        ensures { result ≡ self.now.floor }
    {
        self.floor
    }

    // How many touches there were.
    pub fn touches(&self) -> u64
        ensures { result ≡ summed self.now }
    {
        sum(self.by_level()) + u64::from(self.floor)
    }

    // One more touch that a level served; levels count from 1.
    fn add(&mut self, level: usize)
        requires { summed self.old < 4000000000 }
        ensures hits { served self.new ≡ raised level (served self.old) }
        ensures floor { self.new.floor ≡ self.old.floor }
    {
        // Two comparisons: what `contains` of a range tells is not what the lemmas on tallies speak of.
        if level >= 1 && level <= self.levels {
            self.hits[level - 1] += 1;
        }
    }

    // One more touch, served by a level or by none.
    pub(crate) fn count(&mut self, level: Option<u8>)
        requires { summed self.old < 4000000000 }
        ensures hits { served self.new ≡ now_served level (served self.old) }
        ensures floor { self.new.floor ≡ now_missed level self.old.floor }
    {
        match level {
            Some(level) => self.add(usize::from(level)),
            None => self.floor += 1,
        }
    }
}
