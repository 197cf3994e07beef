// Comparing the layouts that two sheets list over the same images.
#![tactic(auto)]

mod bytes;
mod devices;
mod fault;
mod levels;
mod sheets;
mod side;

pub use bytes::compare_sheets;
pub use fault::LayoutFault;
pub use side::{ImagePair, Side};
