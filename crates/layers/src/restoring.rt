// Restoring: every block of a source to the same number on a device.
ghost use Rattle.std.specs.Prelude.{◌≡◌, ◌&&◌, length, Ok};
ghost use Rattle.device.specs.Below.{all_below};
ghost use Rattle.layers.specs.declared.restoring.RestoreFault.TheVariants.{Block};
ghost use Rattle.layers.specs.Restores.{number_of as numbered, restore_answer as answered, restored, copied};
ghost use Rattle.layers.specs.Copies.{copy_answer as one_answer, copy_store as one_store};

use device::{BLOCK, Device, DeviceFault, Source};
use refusal::Refusal;

// Why nothing was restored.
#[derive(Clone, Copy, PartialEq, Eq, Debug)]
pub enum RestoreFault {
    // The device has fewer blocks than the source.
    Short,
    // A block of the source cannot be read there or written on the device.
    Block(DeviceFault),
}

impl Refusal for RestoreFault {
    ghost number_of = { numbered };

    fn number(self) -> u8 {
        match self {
            RestoreFault::Short => 12,
            RestoreFault::Block(fault) => fault.number(),
        }
    }
}

impl From<DeviceFault> for RestoreFault {
    ghost from_gives = { λ f r. r ≡ Block f };

    fn from(fault: DeviceFault) -> RestoreFault {
        RestoreFault::Block(fault)
    }
}

// A source and a device go from step to step as two: a struct of both would name their types and a lifetime at each step.

// Whether block `b` is sound in both.
fn both_sound<S: Source, D: Source>(source: &S, device: &D, b: u32) -> bool
    ensures { result ≡ ((S.Source.store source.now).sound b && (D.Source.store device.now).sound b) }
{
    source.is_sound(b) && device.is_sound(b)
}

// Whether every block below `blocks` is sound in both.
fn all_sound<S: Source, D: Source>(source: &S, device: &D, blocks: u32) -> bool
    ensures { result ≡ all_below (λ b. (S.Source.store source.now).sound b && (D.Source.store device.now).sound b) blocks }
{
    (0..blocks).all(|b| both_sound(source, device, b))
}

// Checks everything before the first write, and tells how many blocks there are to restore.
fn check_all<S: Source, D: Source>(source: &S, device: &D) -> Result<u32, RestoreFault>
    ensures { result ≡ answered (S.Source.store source.now) (D.Source.store device.now) }
{
    let blocks = source.blocks();
    if device.blocks() < blocks {
        return Err(RestoreFault::Short);
    }
    if !all_sound(source, device, blocks) {
        return Err(RestoreFault::Block(DeviceFault::Defective));
    }
    Ok(blocks)
}

// Copies block `b` by way of the buffer.
fn copy_one<S: Source, D: Device>(
    source: &S,
    device: &mut D,
    b: u32,
    buffer: &mut [u8],
) -> Result<(), DeviceFault>
    ensures answer { result ≡ one_answer (S.Source.store source.now) (D.Source.store device.old) b (length buffer.old) }
    ensures after { D.Source.store device.new ≡ one_store (S.Source.store source.now) (D.Source.store device.old) b (length buffer.old) }
    ensures loans { D.Device.loans device.new ≡ D.Device.loans device.old }
{
    source.read(b, buffer)?;
    device.write(b, buffer)
}

// Copies every block; all have been checked.
fn copy_all<S: Source, D: Device>(
    source: &S,
    device: &mut D,
    blocks: u32,
) -> Result<(), DeviceFault>
    requires { answered (S.Source.store source.now) (D.Source.store device.old) ≡ Ok blocks }
    ensures answer { result ≡ Ok tt }
    ensures after { D.Source.store device.new ≡ copied blocks (S.Source.store source.now) (D.Source.store device.old) }
    ensures loans { D.Device.loans device.new ≡ D.Device.loans device.old }
{
    let mut buffer = [0u8; BLOCK];
    for b in 0..blocks {
        copy_one(source, device, b, &mut buffer)?;
    }
    Ok(())
}

// Restores every block of the source to the same number on the device, and tells how many there are.
// All is checked before the first write: a refusal leaves the device as it was.
pub fn restore<S: Source, D: Device>(source: &S, device: &mut D) -> Result<u32, RestoreFault>
    ensures answer { result ≡ answered (S.Source.store source.now) (D.Source.store device.old) }
    ensures after { D.Source.store device.new ≡ restored (S.Source.store source.now) (D.Source.store device.old) }
    ensures loans { D.Device.loans device.new ≡ D.Device.loans device.old }
{
    let blocks = check_all(source, device)?;
    copy_all(source, device, blocks)?;
    Ok(blocks)
}
