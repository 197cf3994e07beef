// What a source and a device mean. Code above them is proved once, from these contracts.
ghost use Rattle.std.specs.Prelude.{◌≡◌, length};
ghost use Rattle.device.specs.Store.{Store, Lawful};
ghost use Rattle.device.specs.Answers.{answer, filled, written};
ghost use Rattle.device.specs.Loans.{Loans};

use crate::fault::DeviceFault;

// Blocks of 256 bytes, numbered from 0, some of which may be defective.
pub trait Source {
    // the blocks and their defects
    ghost store: { Self → Store };

    // a source has at most 1,048,576 blocks, each of 256 bytes, and only a block that it has is sound
    ghost lawful: { (x : Self) → Lawful (store x) };

    // How many blocks there are.
    fn blocks(&self) -> u32
        ensures { result ≡ (store self.now).size };

    // Whether block `b` is there and not defective.
    fn is_sound(&self, b: u32) -> bool
        ensures { result ≡ (store self.now).sound b };

    // Reads block `b` into the buffer; a refused read leaves the buffer.
    fn read(&self, b: u32, buffer: &mut [u8]) -> Result<(), DeviceFault>
        ensures answer { result ≡ answer (store self.now) b (length buffer.old) }
        ensures buffer { buffer.new ≡ filled (store self.now) b buffer.old };
}

// A source that can also be written.
pub trait Device: Source {
    // the caller's memory that the device stands over, and how
    ghost loans: { Self → Loans };

    // Replaces block `b` and leaves every other; a refused write leaves all.
    fn write(&mut self, b: u32, bytes: &[u8]) -> Result<(), DeviceFault>
        ensures answer { result ≡ answer (Self.Source.store self.old) b (length bytes.now) }
        ensures after { Self.Source.store self.new ≡ written (Self.Source.store self.old) b bytes.now }
        ensures loans { loans self.new ≡ loans self.old };
}
