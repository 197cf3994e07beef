// Walking a ring.
ghost use Rattle.std.specs.Prelude.{◌≡◌, length};
ghost use Rattle.std.specs.Iterator.{YieldsFirst, item_count};
ghost use Rattle.rings.specs.Places.{nexts};
ghost use Rattle.rings.specs.Walks.{Ends, met};

use crate::links::{Link, behind};
use crate::slot::Slot;

// The slots of a ring from a place on.
#[derive(Drop)]
pub struct Slots<'a> {
    links: &'a [Link; 32],
    place: usize,
    ghost wide: { length links.now ≡ 32 },
    ghost ends: { Ends (nexts links.now) place },
}

impl<'a> Slots<'a> {
    // The slots from a place on, from which the links lead on at most sixteen times.
    pub(crate) fn from(links: &'a [Link; 32], place: usize) -> Slots<'a>
        requires { Ends (nexts links.now) place }
        ensures { met (nexts result.links.now) result.place ≡ met (nexts links.now) place }
    {
        Slots { links, place }
    }
}

impl<'a> Iterator for Slots<'a> {
    type Item = Slot;

    ghost next_gives = { YieldsFirst (λ s. met (nexts s.links.now) s.place) };

    ghost remaining = { item_count (λ s. met (nexts s.links.now) s.place) };

    fn next(&mut self) -> Option<Slot> {
        let slot = Slot::at(self.place)?;
        self.place = behind(self.links, slot.index());
        Some(slot)
    }
}
