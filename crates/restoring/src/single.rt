// Restoring from bytes to bytes: the devices are made over the caller's slices and are gone at the end.
ghost use Rattle.std.specs.Prelude.{◌≡◌};
ghost use Rattle.device.specs.Bytes.{of_bytes as seen};
ghost use Rattle.layers.specs.Restores.{restored};
ghost use Rattle.restoring.specs.Slices.{image_answer as answered, image_restored as refilled};

use device::{Archive, Image};
use layers::{RestoreFault, restore};

// Restores an archive onto an image, block by block.
fn restore_blocks(archive: &[u8], image: &mut [u8]) -> Result<u32, RestoreFault>
    ensures answer { result ≡ answered archive.now image.old }
    ensures blocks { seen image.new ≡ restored (seen archive.now) (seen image.old) }
{
    let source = Archive::new(archive);
    let mut device = Image::new(image);
    restore(&source, &mut device)
}

// Restores an archive onto an image, and tells how many blocks there were.
#[tactic(auto, using(crate::proofs::Refilled::refilled))]
pub fn restore_image(archive: &[u8], image: &mut [u8]) -> Result<u32, RestoreFault>
    ensures answer { result ≡ answered archive.now image.old }
    ensures image { image.new ≡ refilled archive.now image.old }
{
    restore_blocks(archive, image)
}
