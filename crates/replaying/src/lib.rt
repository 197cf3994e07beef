// Replaying a trace from bytes to bytes: a sheet, its images and a trace come in, and the images and the tallies come out.
#![tactic(auto)]

mod bytes;
mod fault;
mod images;
mod job;
mod levels;
mod running;
mod work;

pub use bytes::{Replayed, replay};
pub use fault::ReplayFault;
pub use images::list_defects;
pub use levels::{level_of, on_levels};
pub use work::{Done, Work};
