// Rings of slots, and an index over them.
#![tactic(auto)]

mod index;
mod links;
mod ring;
mod rings;
mod slot;
mod walk;

pub use index::Index;
pub use ring::Ring;
pub use rings::Rings;
pub use slot::Slot;
pub use walk::Slots;
