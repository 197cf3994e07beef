// The client of a tier: a pile, its calls, and the laws over every list of them.
#![tactic(auto)]

mod faults;
mod laws;
mod pile;
mod tallies;

pub use faults::{MountFault, PileFault};
pub use laws::laws_hold;
pub use pile::{Pile, Refused, check_mount};
pub use tallies::Tallies;
