// Devices that stand over other devices, and the copying of one onto another.
#![tactic(auto)]

mod defects;
mod home;
mod restoring;
mod stripe;
mod unit;

pub use defects::{DefectFault, DefectList};
pub use home::Home;
pub use restoring::{RestoreFault, restore};
pub use stripe::Stripe;
pub use unit::{Unit, UnitFault};
