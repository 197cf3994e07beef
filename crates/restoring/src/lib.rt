// Restoring from bytes to bytes, onto devices made over the caller's slices.
#![tactic(auto)]

mod record;
mod single;
mod stack;

pub use record::Record;
pub use single::restore_image;
pub use stack::{StackFault, Striping, restore_images};
