// An image: a device over bytes that are handed in for writing.
ghost use Rattle.std.specs.Prelude.{◌≡◌};
ghost use Rattle.device.specs.Bytes.{of_bytes as seen};
ghost use Rattle.device.specs.Whole.{of_bytes_lawful as seen_lawful};
ghost use Rattle.device.specs.Loans.{lent, owned};

use crate::blocks::{block_count, read_block, write_block};
use crate::fault::DeviceFault;
use crate::source::{Device, Source};

// A device over bytes handed in for writing. Bytes past the last whole block are never touched, and no block is defective.
#[derive(Drop)]
pub struct Image<'a> {
    bytes: &'a mut [u8],
}

impl<'a> Image<'a> {
    // The image over these bytes.
    pub fn new(bytes: &'a mut [u8]) -> Image<'a>
        ensures bytes { result.bytes.now ≡ bytes.old }
        ensures loan { result.bytes.ghost_name ≡ bytes.entry.ghost_name }
    {
        Image { bytes }
    }
}

// As an archive's: one type over both kinds of slice would need a trait of its own for the bytes, and no fewer lines.
impl<'a> Source for Image<'a> {
    ghost store = { λ x. seen x.bytes.now };

    ghost lawful = { λ x. seen_lawful x.bytes.now };

    fn blocks(&self) -> u32 {
        block_count(self.bytes)
    }

    fn is_sound(&self, b: u32) -> bool {
        b < block_count(self.bytes)
    }

    fn read(&self, b: u32, buffer: &mut [u8]) -> Result<(), DeviceFault> {
        read_block(self.bytes, b, buffer)
    }
}

impl<'a> Device for Image<'a> {
    ghost loans = { λ x. lent x.bytes.ghost_name owned };

    fn write(&mut self, b: u32, bytes: &[u8]) -> Result<(), DeviceFault> {
        write_block(self.bytes, b, bytes)
    }
}
