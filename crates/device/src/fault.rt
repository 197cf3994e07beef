// The refusals of a block device, in checking order.
ghost use Rattle.std.specs.Prelude.{◌≡◌};
ghost use Rattle.device.specs.Answers.{checked};
ghost use Rattle.device.specs.Refusals.{number_of as numbered};

use refusal::Refusal;

// The length of a block in bytes.
pub const BLOCK: usize = 256;

// Why a device refused a read or a write.
#[derive(Clone, Copy, PartialEq, Eq, Debug)]
pub enum DeviceFault {
    // The buffer is not 256 bytes long.
    Length,
    // The block number is not below the number of blocks.
    Range,
    // The block is defective.
    Defective,
}

impl Refusal for DeviceFault {
    ghost number_of = { numbered };

    fn number(self) -> u8 {
        match self {
            DeviceFault::Length => 1,
            DeviceFault::Range => 2,
            DeviceFault::Defective => 3,
        }
    }
}

// Checks a read or a write of block `b` with a buffer of `len` bytes, on a device of so many blocks of which `b` is sound or not.
pub fn admit(len: usize, b: u32, blocks: u32, sound: bool) -> Result<(), DeviceFault>
    ensures { result ≡ checked len b blocks sound }
{
    if len != BLOCK {
        return Err(DeviceFault::Length);
    }
    if b >= blocks {
        return Err(DeviceFault::Range);
    }
    if !sound {
        return Err(DeviceFault::Defective);
    }
    Ok(())
}
