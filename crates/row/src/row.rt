// A row: entries latest first, at most a capacity.
ghost use Rattle.std.specs.Prelude.{◌≡◌, ◌≤◌, length};
ghost use Rattle.row.specs.Held.{Whole};
ghost use Rattle.row.specs.Orders.{order};

use crate::frame::Frame;
use crate::shelf::Shelf;

// The blocks of one level: the shelf says which slot has which block, and in what order, and the frame of a slot has the
// block's bytes and its mark. Frames are an array beside the shelf, since taking a block in allocates nothing.
#[derive(Drop)]
pub struct Row {
    shelf: Shelf,
    frames: [Frame; 16],
    capacity: u32,
    ghost wide: { length frames ≡ 16 },
    ghost whole: { Whole frames },
    ghost room: { length (order shelf) ≤ capacity },
    ghost some: { 1 ≤ capacity },
    ghost few: { capacity ≤ 16 },
}

mod methods;
mod telling;
