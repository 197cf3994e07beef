// The certificate: which layouts serve equally many touches, whatever a program reads and writes.
#![tactic(auto)]

mod devices;
mod fault;
mod layout;
mod reads;
mod sizes;
mod weighing;

pub use layout::Layout;
pub use weighing::{CompareFault, Comparison, Verdict, compare};
