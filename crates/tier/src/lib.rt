// Tiers: rows of entries over stored blocks.
#![tactic(auto)]

mod faults;
mod floor;
mod level;
mod tier;
mod victim;

pub use faults::{DemoteFault, Dropped, LiftFault, Lifted};
pub use floor::Floor;
pub use level::Level;
pub use tier::Tier;
pub use victim::Victim;
