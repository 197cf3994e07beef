// A row: the blocks that one level of a cache holds, latest first.
#![tactic(auto)]

mod capacity;
mod frame;
mod row;
mod shelf;

pub use capacity::CapacityFault;
pub use frame::{Mark, Tag};
pub use rings::Slot;
pub use row::Row;
