// Plain bytes seen as blocks: what images and archives share. Functions over slices, since those two are the types of bytes seen
// so, and hold slices of two kinds.
ghost use Rattle.std.specs.Prelude.{◌≡◌, ◌<◌, length};
ghost use Rattle.device.specs.Answers.{answer, filled, written};
ghost use Rattle.device.specs.Store.{put};
ghost use Rattle.device.specs.Bytes.{block_count as counted, of_bytes as seen};

use crate::fault::{BLOCK, DeviceFault, admit};

// The most blocks that a device has.
const MOST: usize = 1048576;

// How many whole blocks the bytes have.
pub fn block_count(bytes: &[u8]) -> u32
    ensures { result ≡ counted bytes.now }
{
    (bytes.len() / BLOCK).min(MOST) as u32
}

// Checks a read or a write of block `b` of the bytes with a buffer of `len` bytes.
fn admit_bytes(bytes: &[u8], b: u32, len: usize) -> Result<(), DeviceFault>
    ensures { result ≡ answer (seen bytes.now) b len }
{
    let blocks = block_count(bytes);
    admit(len, b, blocks, b < blocks)
}

// The part of the bytes that block `b` is.
fn block_of(bytes: &[u8], b: u32) -> &[u8]
    requires { b < counted bytes.now }
    ensures block { result.now ≡ (seen bytes.now).at b }
    ensures len { length result.now ≡ 256 }
{
    let at = BLOCK * b as usize;
    &bytes[at..at + BLOCK]
}

// Copies a block's new bytes into the part of the bytes that it is.
// The part is a range: the contract of `as_chunks_mut` does not say what the bytes are afterwards.
#[tactic(auto, using(crate::proofs::OneBlock::put_block_part, crate::specs::Whole::fits))]
fn replace_block(bytes: &mut [u8], b: u32, block: &[u8])
    requires { (b < counted bytes.old) × (length block.now ≡ 256) }
    ensures { seen bytes.new ≡ put (seen bytes.old) b block.now }
{
    let at = BLOCK * b as usize;
    bytes[at..at + BLOCK].copy_from_slice(block);
}

// Reads block `b` of the bytes into the buffer.
pub fn read_block(bytes: &[u8], b: u32, buffer: &mut [u8]) -> Result<(), DeviceFault>
    ensures answer { result ≡ answer (seen bytes.now) b (length buffer.old) }
    ensures buffer { buffer.new ≡ filled (seen bytes.now) b buffer.old }
{
    admit_bytes(bytes, b, buffer.len())?;
    buffer.copy_from_slice(block_of(bytes, b));
    Ok(())
}

// Writes block `b` of the bytes.
pub fn write_block(bytes: &mut [u8], b: u32, block: &[u8]) -> Result<(), DeviceFault>
    ensures answer { result ≡ answer (seen bytes.old) b (length block.now) }
    ensures after { seen bytes.new ≡ written (seen bytes.old) b block.now }
{
    admit_bytes(bytes, b, block.len())?;
    replace_block(bytes, b, block);
    Ok(())
}
