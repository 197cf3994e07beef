// Restoring onto a stripe of two images under a defect list, from bytes to bytes.
// Each layer is made by one small function over any device, so that what the slices hold at the end is known.
ghost use Rattle.std.specs.Prelude.{◌≡◌, ℕ, true, false, List, [], is_ok, if◌then◌else◌, Err};
ghost use Rattle.std.specs.Vec.{vec_items as items};
ghost use Rattle.restoring.specs.declared.stack.StackFault.TheVariants.{Unit as OfUnit, Defects as OfDefects, Restore as OfRestore};
ghost use Rattle.layers.specs.declared.defects.DefectFault.TheVariants.{Memory};
ghost use Rattle.device.specs.Bytes.{of_bytes as seen};
ghost use Rattle.device.specs.Loans.{lent, owned};
ghost use Rattle.layers.specs.Defects.{had_room as roomy};
ghost use Rattle.restoring.specs.Stacks.{number_of as numbered, list_answer as all_answer, listed_answer, stack_answer, memory_or, blocks_after, first_after, second_after, BlocksTell};

use device::{Archive, Device, Image, Source};
use layers::{DefectFault, DefectList, RestoreFault, Stripe, Unit, UnitFault, restore};
use refusal::Refusal;
use std::alloc::Global;

// How two devices are striped: the unit, and which blocks of the stripe are defective, in rising order.
#[derive(Clone, Copy)]
pub struct Striping<'a> {
    pub unit: u32,
    pub defects: &'a [u32],
}

// Why nothing was restored onto the stripe.
#[derive(Clone, Copy, PartialEq, Eq, Debug)]
pub enum StackFault {
    Unit(UnitFault),
    Defects(DefectFault),
    Restore(RestoreFault),
}

impl Refusal for StackFault {
    ghost number_of = { numbered };

    fn number(self) -> u8 {
        match self {
            StackFault::Unit(fault) => fault.number(),
            StackFault::Defects(fault) => fault.number(),
            StackFault::Restore(fault) => fault.number(),
        }
    }
}

impl From<UnitFault> for StackFault {
    ghost from_gives = { λ f r. r ≡ OfUnit f };

    fn from(fault: UnitFault) -> StackFault {
        StackFault::Unit(fault)
    }
}

impl From<DefectFault> for StackFault {
    ghost from_gives = { λ f r. r ≡ OfDefects f };

    fn from(fault: DefectFault) -> StackFault {
        StackFault::Defects(fault)
    }
}

impl From<RestoreFault> for StackFault {
    ghost from_gives = { λ f r. r ≡ OfRestore f };

    fn from(fault: RestoreFault) -> StackFault {
        StackFault::Restore(fault)
    }
}

// Lists all the numbers on an empty list.
fn list_all<D>(list: &mut DefectList<D>, numbers: &[u32]) -> Result<(), DefectFault>
    requires { items list.old.numbers ≡ [] }
    ensures answer { result ≡ (if roomy result then all_answer [] numbers.now else Err Memory) }
    ensures numbers { is_ok result ≡ true → items list.new.numbers ≡ numbers.now }
    ensures below { list.new.below ≡ list.old.below }
{
    for n in numbers {
        list.list(*n)?;
    }
    Ok(())
}

// Lists the numbers and restores onto the list's device.
fn restore_under<S: Source, D: Device>(
    source: &S,
    list: &mut DefectList<D>,
    numbers: &[u32],
) -> Result<u32, StackFault>
    requires { items list.old.numbers ≡ [] }
    ensures answer { result ≡ memory_or result (listed_answer numbers.now (S.Source.store source.now) (D.Source.store list.old.below)) }
    ensures after { (D.Source.store list.new.below).at ≡ blocks_after result (S.Source.store source.now) (D.Source.store list.old.below) }
    ensures loans { D.Device.loans list.new.below ≡ D.Device.loans list.old.below }
{
    list_all(list, numbers)?;
    Ok(restore(source, list)?)
}

// Restores onto a device of which the numbers are defective.
fn restore_listed<S: Source, D: Device>(
    heap: Global,
    source: &S,
    device: &mut D,
    numbers: &[u32],
) -> Result<u32, StackFault>
    ensures answer { result ≡ memory_or result (listed_answer numbers.now (S.Source.store source.now) (D.Source.store device.old)) }
    ensures after { (D.Source.store device.new).at ≡ blocks_after result (S.Source.store source.now) (D.Source.store device.old) }
    ensures loans { D.Device.loans device.new ≡ D.Device.loans device.old }
{
    let mut list = DefectList::new(heap, device);
    let r = restore_under(source, &mut list, numbers);
    let _below = list.into_below();
    r
}

// Restores onto a stripe of two devices, with its unit and its defects.
fn restore_striped<S: Source, D: Device, E: Device>(
    heap: Global,
    source: &S,
    first: &mut D,
    second: &mut E,
    how: Striping,
) -> Result<u32, StackFault>
    ensures answer { result ≡ memory_or result (stack_answer how.entry.unit how.entry.defects.now (S.Source.store source.now) (D.Source.store first.old) (E.Source.store second.old)) }
    ensures first { (D.Source.store first.new).at ≡ first_after result how.entry.unit (S.Source.store source.now) (D.Source.store first.old) }
    ensures second { (E.Source.store second.new).at ≡ second_after result how.entry.unit (S.Source.store source.now) (E.Source.store second.old) }
    ensures first_loans { D.Device.loans first.new ≡ D.Device.loans first.old }
    ensures second_loans { E.Device.loans second.new ≡ E.Device.loans second.old }
{
    let unit = Unit::try_from(how.unit)?;
    let mut stripe = Stripe::with_unit(first, second, unit);
    restore_listed(heap, source, &mut stripe, how.defects)
}

// Restores an archive onto two images, striped; each still stands over the slice that it stood over. Two and no struct of them,
// since a clause says of each what it holds at the end.
fn restore_devices(
    heap: Global,
    source: &Archive,
    first: &mut Image,
    second: &mut Image,
    how: Striping,
) -> Result<u32, StackFault>
    ensures answer { result ≡ memory_or result (stack_answer how.entry.unit how.entry.defects.now (seen source.now.bytes.now) (seen first.old.bytes.now) (seen second.old.bytes.now)) }
    ensures first { (seen first.new.bytes.now).at ≡ first_after result how.entry.unit (seen source.now.bytes.now) (seen first.old.bytes.now) }
    ensures second { (seen second.new.bytes.now).at ≡ second_after result how.entry.unit (seen source.now.bytes.now) (seen second.old.bytes.now) }
    ensures first_loans { lent first.new.bytes.ghost_name owned ≡ lent first.old.bytes.ghost_name owned }
    ensures second_loans { lent second.new.bytes.ghost_name owned ≡ lent second.old.bytes.ghost_name owned }
{
    restore_striped(heap, source, first, second, how)
}

// Restores an archive onto two striped images, block by block.
fn restore_image_blocks(
    heap: Global,
    archive: &[u8],
    first: &mut [u8],
    second: &mut [u8],
    how: Striping,
) -> Result<u32, StackFault>
    ensures answer { result ≡ memory_or result (stack_answer how.entry.unit how.entry.defects.now (seen archive.now) (seen first.old) (seen second.old)) }
    ensures first { (seen first.new).at ≡ first_after result how.entry.unit (seen archive.now) (seen first.old) }
    ensures second { (seen second.new).at ≡ second_after result how.entry.unit (seen archive.now) (seen second.old) }
{
    let source = Archive::new(archive);
    let mut a = Image::new(first);
    let mut b = Image::new(second);
    restore_devices(heap, &source, &mut a, &mut b, how)
}

// Restores an archive onto two striped images, of which the blocks tell the bytes.
// Apart from the public function, which needs no proof file then: the search does not close `refused` and `told`.
fn restore_image_bytes(
    heap: Global,
    archive: &[u8],
    first: &mut [u8],
    second: &mut [u8],
    how: Striping,
) -> Result<u32, StackFault>
    ensures answer { result ≡ memory_or result (stack_answer how.entry.unit how.entry.defects.now (seen archive.now) (seen first.old) (seen second.old)) }
    ensures first { (seen first.new).at ≡ first_after result how.entry.unit (seen archive.now) (seen first.old) }
    ensures second { (seen second.new).at ≡ second_after result how.entry.unit (seen archive.now) (seen second.old) }
    ensures refused { is_ok result ≡ false → (first.new ≡ first.old) × (second.new ≡ second.old) }
    ensures told { BlocksTell }
{
    restore_image_blocks(heap, archive, first, second, how)
}

// Restores an archive onto two striped images, some blocks of the stripe being defective, and tells how many blocks there were.
// The slices then hold the archive's blocks where the stripe has them, and all else as it was; a refusal leaves both slices.
pub fn restore_images(
    heap: Global,
    archive: &[u8],
    first: &mut [u8],
    second: &mut [u8],
    how: Striping,
) -> Result<u32, StackFault>
    ensures answer { result ≡ memory_or result (stack_answer how.entry.unit how.entry.defects.now (seen archive.now) (seen first.old) (seen second.old)) }
    ensures first { (seen first.new).at ≡ first_after result how.entry.unit (seen archive.now) (seen first.old) }
    ensures second { (seen second.new).at ≡ second_after result how.entry.unit (seen archive.now) (seen second.old) }
    ensures refused { is_ok result ≡ false → (first.new ≡ first.old) × (second.new ≡ second.old) }
    ensures told { BlocksTell }
{
    restore_image_bytes(heap, archive, first, second, how)
}
