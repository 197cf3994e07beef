// The refusals of a capacity.
ghost use Rattle.std.specs.Prelude.{◌≡◌, ◌≤◌, true, is_ok};
ghost use Rattle.row.specs.Refusals.{capacity_answer as answered, capacity_number_of as numbered};

use refusal::Refusal;

// Why a capacity was not set.
#[derive(Clone, Copy, PartialEq, Eq, Debug)]
pub enum CapacityFault {
    // It is outside 1 to 16.
    Outside,
    // The row has an entry.
    InUse,
}

impl Refusal for CapacityFault {
    ghost number_of = { numbered };

    fn number(self) -> u8 {
        match self {
            CapacityFault::Outside | CapacityFault::InUse => 8,
        }
    }
}

// Checks a capacity for a row of `len` entries.
pub fn check(capacity: u32, len: u32) -> Result<(), CapacityFault>
    ensures answer { result ≡ answered capacity len }
    ensures taken { is_ok result ≡ true → (1 ≤ capacity) × (capacity ≤ 16) × (len ≡ 0) }
{
    if !(1..=16).contains(&capacity) {
        return Err(CapacityFault::Outside);
    }
    if len > 0 {
        return Err(CapacityFault::InUse);
    }
    Ok(())
}
