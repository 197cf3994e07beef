// A shelf: which slot has which number, and in what order.
ghost use Rattle.std.specs.Prelude.{◌≡◌, length};
ghost use Rattle.rings.specs.Models.{ring};
ghost use Rattle.row.specs.Shelves.{Listed, Spare, Single, Small};

use rings::{Index, Rings};

// Sixteen slots, of which some have numbers, all different, and stand in order. Each of these is once in the index and once
// in ring 0 of the places; all others are in ring 1, which is where a slot for a new number comes from. Their count stands beside
// the ring, since counting would take a walk.
#[derive(Drop)]
pub struct Shelf {
    index: Index,
    places: Rings,
    len: u32,
    ghost listed: { Listed places index },
    ghost spare: { Spare places index },
    ghost single: { Single index },
    ghost small: { Small index },
    ghost counted: { len ≡ length (ring places 0) },
}

mod methods;
