// A stripe: two devices as one.
ghost use Rattle.std.specs.Prelude.{◌<◌, ◌≤◌};

use crate::unit::Unit;

// A device over two devices that takes runs of `unit` blocks from each in turn.
#[derive(Drop)]
pub struct Stripe<D, E> {
    first: D,
    second: E,
    unit: Unit,
    ghost some: { 0 < unit },
    ghost few: { unit ≤ 64 },
}

mod methods;
