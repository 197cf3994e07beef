// The layouts of two sheets over the same images, from bytes.
ghost use Rattle.std.specs.Prelude.{◌≡◌};
ghost use Rattle.comparing.specs.Sheets.{Proved, shown, memory_or, layouts_answer};
ghost use Rattle.comparing.specs.Sides.{SidesWeighed};
ghost use Rattle.device.specs.Bytes.{of_bytes as blocks};
ghost use Rattle.formats.specs.Seen.{listed};
ghost use Rattle.layers.specs.Stripes.{striped};
ghost use Rattle.replaying.specs.Layouts.{tier_of};

use crate::devices::compare_listed;
use crate::fault::LayoutFault;
use crate::side::{ImagePair, Side};
use certificate::Comparison;
use device::{Device, Image};
use formats::{Images, Sheet};
use layers::{Stripe, Unit};
use std::alloc::Global;

// The first layout over one image, the second over another.
fn compare_single(
    heap: Global,
    one: &mut [u8],
    first: Side<&Sheet>,
    other: &mut [u8],
    second: Side<&Sheet>,
) -> Result<Comparison, LayoutFault>
    ensures { SidesWeighed first.entry (blocks one.old) second.entry (blocks other.old) result }
{
    let mut one = Image::new(one);
    let mut other = Image::new(other);
    compare_listed(heap, &mut one, first, &mut other, second)
}

// The first layout over a stripe, the second over another of the same unit. Devices are lent one by one, as below.
fn compare_stripes<D: Device, E: Device, F: Device, G: Device>(
    heap: Global,
    one_first: &mut D,
    one_second: &mut E,
    first: Side<&Sheet>,
    other_first: &mut F,
    other_second: &mut G,
    second: Side<&Sheet>,
    unit: Unit,
) -> Result<Comparison, LayoutFault>
    ensures { SidesWeighed first.entry (striped unit (D.Source.store one_first.old) (E.Source.store one_second.old)) second.entry (striped unit (F.Source.store other_first.old) (G.Source.store other_second.old)) result }
{
    let one = Stripe::with_unit(one_first, one_second, unit);
    let other = Stripe::with_unit(other_first, other_second, unit);
    compare_listed(heap, one, first, other, second)
}

// The first layout over two striped images, the second over two others. The slices are lent one by one, since a function with
// two lent slices in one argument gets no proof.
fn compare_pairs(
    heap: Global,
    one_first: &mut [u8],
    one_second: &mut [u8],
    first: Side<&Sheet>,
    other_first: &mut [u8],
    other_second: &mut [u8],
    second: Side<&Sheet>,
    unit: Unit,
) -> Result<Comparison, LayoutFault>
    ensures { SidesWeighed first.entry (striped unit (blocks one_first.old) (blocks one_second.old)) second.entry (striped unit (blocks other_first.old) (blocks other_second.old)) result }
{
    let mut a = Image::new(one_first);
    let mut b = Image::new(one_second);
    let mut c = Image::new(other_first);
    let mut d = Image::new(other_second);
    compare_stripes(heap, &mut a, &mut b, first, &mut c, &mut d, second, unit)
}

// Both layouts over copies of one image.
fn compare_copies(
    heap: Global,
    first: Side<&Sheet>,
    second: Side<&Sheet>,
    image: &[u8],
) -> Result<Comparison, LayoutFault>
    ensures { SidesWeighed first.entry (blocks image.now) second.entry (blocks image.now) result }
{
    let mut one = Vec::from_slice(heap, image)?;
    let mut other = Vec::from_slice(heap, image)?;
    compare_single(heap, &mut one, first, &mut other, second)
}

// Both layouts over copies of two striped images.
fn compare_striped_copies(
    heap: Global,
    first: Side<&Sheet>,
    second: Side<&Sheet>,
    images: ImagePair,
    unit: Unit,
) -> Result<Comparison, LayoutFault>
    ensures { SidesWeighed first.entry (striped unit (blocks images.entry.first.now) (blocks images.entry.second.now)) second.entry (striped unit (blocks images.entry.first.now) (blocks images.entry.second.now)) result }
{
    let mut a = Vec::from_slice(heap, images.first)?;
    let mut b = Vec::from_slice(heap, images.second)?;
    let mut c = Vec::from_slice(heap, images.first)?;
    let mut d = Vec::from_slice(heap, images.second)?;
    compare_pairs(heap, &mut a, &mut b, first, &mut c, &mut d, second, unit)
}

// The layouts of two sheets that list the same images, over copies of these.
pub fn compare_images(
    heap: Global,
    first: Side<&Sheet>,
    second: Side<&Sheet>,
    images: ImagePair,
) -> Result<Comparison, LayoutFault>
    ensures answer { shown result ≡ memory_or result (layouts_answer (listed first.entry.sheet.now) first.entry.levels (listed second.entry.sheet.now) second.entry.levels images.entry.first.now images.entry.second.now) }
    ensures proved { Proved (tier_of (listed first.entry.sheet.now) images.entry.first.now images.entry.second.now) first.entry.levels (tier_of (listed second.entry.sheet.now) images.entry.first.now images.entry.second.now) second.entry.levels result }
{
    match (first.sheet.images, second.sheet.images) {
        (Images::Single, Images::Single) => compare_copies(heap, first, second, images.first),
        (Images::Striped(unit), Images::Striped(other)) => {
            if unit != other {
                return Err(LayoutFault::Images);
            }
            let unit = Unit::try_from(u32::from(unit)).unwrap();
            compare_striped_copies(heap, first, second, images, unit)
        }
        _ => Err(LayoutFault::Images),
    }
}
