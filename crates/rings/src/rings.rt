// Rings: slots in doubly linked lists.
ghost use Rattle.std.specs.Prelude.{◌≡◌, length};
ghost use Rattle.rings.specs.Links.{Closed, Paired};
ghost use Rattle.rings.specs.Places.{nexts, prevs};

use crate::links::Link;

// Sixteen doubly linked rings over sixteen slots, each slot in at most one. Places 0 to 15 are the slots, and ring r
// begins and ends at the place 16 + r, so that no link is ever missing. A slot in no ring is linked to itself.
// Places name one another by number, and not by `Box`, since moving a slot allocates nothing.
#[derive(Drop)]
pub struct Rings {
    links: [Link; 32],
    ghost wide: { length links ≡ 32 },
    ghost paired: { Paired (nexts links) (prevs links) },
    ghost paired_back: { Paired (prevs links) (nexts links) },
    ghost closed: { Closed (nexts links) (prevs links) },
}

mod methods;
