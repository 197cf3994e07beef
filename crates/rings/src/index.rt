// An index: slots by the number that each is filed under.
ghost use Rattle.std.specs.Prelude.{◌≡◌, length};
ghost use Rattle.rings.specs.Buckets.{Filed};

use crate::rings::Rings;

// A hash table over sixteen slots: each bucket is a ring, and a slot is filed in the bucket of its number. The numbers stand
// in an array beside the rings, and in no map, since filing a slot allocates nothing.
#[derive(Drop)]
pub struct Index {
    rings: Rings,
    keys: [u32; 16],
    ghost wide: { length keys ≡ 16 },
    ghost filed: { Filed rings keys },
}

mod methods;
