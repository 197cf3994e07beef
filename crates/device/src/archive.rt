// An archive: a source over bytes that are held for reading.
ghost use Rattle.std.specs.Prelude.{◌≡◌};
ghost use Rattle.device.specs.Bytes.{of_bytes as seen};
ghost use Rattle.device.specs.Whole.{of_bytes_lawful as seen_lawful};

use crate::blocks::{block_count, read_block};
use crate::fault::DeviceFault;
use crate::source::Source;

// A source over bytes held for reading; none of its blocks is defective.
#[derive(Clone, Copy)]
pub struct Archive<'a> {
    bytes: &'a [u8],
}

impl<'a> Archive<'a> {
    // The archive over these bytes.
    pub fn new(bytes: &'a [u8]) -> Archive<'a>
        ensures { result.bytes.now ≡ bytes.now }
    {
        Archive { bytes }
    }
}

impl<'a> Source for Archive<'a> {
    ghost store = { λ x. seen x.bytes.now };

    ghost lawful = { λ x. seen_lawful x.bytes.now };

    fn blocks(&self) -> u32 {
        block_count(self.bytes)
    }

    fn is_sound(&self, b: u32) -> bool {
        b < block_count(self.bytes)
    }

    fn read(&self, b: u32, buffer: &mut [u8]) -> Result<(), DeviceFault> {
        read_block(self.bytes, b, buffer)
    }
}
