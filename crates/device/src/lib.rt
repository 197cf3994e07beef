// Block devices: what a source and a device mean, and the two that stand over plain bytes.
#![tactic(auto)]

mod archive;
mod blocks;
mod fault;
mod image;
mod lent;
mod source;

pub use archive::Archive;
pub use fault::{BLOCK, DeviceFault, admit};
pub use image::Image;
pub use source::{Device, Source};
