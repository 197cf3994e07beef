// The device that a sheet lists over its images, and the run of a trace on it.
// Each layer is made by one small function over any device, so that what the slices hold at the end is known.
ghost use Rattle.std.specs.Prelude.{◌≡◌, ◌≤◌, [], MatchResult};
ghost use Rattle.std.specs.Vec.{vec_items as items};
ghost use Rattle.device.specs.Bytes.{of_bytes as seen};
ghost use Rattle.formats.specs.Seen.{listed};
ghost use Rattle.layers.specs.Stripes.{striped};
ghost use Rattle.replaying.specs.Bounds.{Rising};
ghost use Rattle.replaying.specs.Calls.{calls_of};
ghost use Rattle.replaying.specs.Jobs.{JobTells, job_leaves};
ghost use Rattle.replaying.specs.Layouts.{device_of, tier_of, first_half, second_half, first_of, second_of};
ghost use Rattle.replaying.specs.Outcomes.{TellsOr, blocks_after};

use crate::fault::ReplayFault;
use crate::job::Job;
use crate::levels::replay_levels;
use crate::running::Outcome;
use device::{Device, Image};
use formats::Images;
use layers::{DefectFault, DefectList, Stripe, Unit};
use std::alloc::Global;

// Numbers that rise and are few are refused for want of memory alone.
fn want_of_memory(fault: DefectFault) -> ReplayFault
    requires { fault ≡ DefectFault.Memory }
    ensures { result ≡ ReplayFault.Memory }
{
    match fault {
        DefectFault::Memory => ReplayFault::Memory,
        DefectFault::NotGreater | DefectFault::Full => unreachable(),
    }
}

// Lists the defects of a sheet on an empty list. They rise and are few, so only memory can be wanting.
pub fn list_defects<D>(list: &mut DefectList<D>, defects: &[u16]) -> Result<(), ReplayFault>
    requires empty { items list.old.numbers ≡ [] }
    requires rising { Rising defects.now }
    ensures numbers { MatchResult result (λ _. items list.new.numbers ≡ defects.now) (λ f. f ≡ ReplayFault.Memory) }
    ensures below { list.new.below ≡ list.old.below }
{
    for n in defects {
        list.list(u32::from(*n)).map_err(want_of_memory)?;
    }
    Ok(())
}

// Lists the sheet's defects and runs the lines on its levels over the list.
fn replay_under<D: Device>(list: &mut DefectList<D>, job: Job) -> Result<Outcome, ReplayFault>
    requires { items list.old.numbers ≡ [] }
    ensures told { JobTells job.entry (D.Source.store list.old.below) result }
    ensures after { (D.Source.store list.new.below).at ≡ job_leaves job.entry (D.Source.store list.old.below) result }
    ensures loans { D.Device.loans list.new.below ≡ D.Device.loans list.old.below }
{
    list_defects(list, &job.sheet.defects)?;
    Ok(replay_levels(list, job))
}

// Runs the lines on a device under the sheet's defects and levels.
fn replay_listed<D: Device>(heap: Global, device: &mut D, job: Job) -> Result<Outcome, ReplayFault>
    ensures told { JobTells job.entry (D.Source.store device.old) result }
    ensures after { (D.Source.store device.new).at ≡ job_leaves job.entry (D.Source.store device.old) result }
    ensures loans { D.Device.loans device.new ≡ D.Device.loans device.old }
{
    let mut list = DefectList::new(heap, device);
    let r = replay_under(&mut list, job);
    let _below = list.into_below();
    r
}

// On one image.
fn replay_image(heap: Global, bytes: &mut [u8], job: Job) -> Result<Outcome, ReplayFault>
    ensures told { JobTells job.entry (seen bytes.old) result }
    ensures after { (seen bytes.new).at ≡ job_leaves job.entry (seen bytes.old) result }
{
    let mut image = Image::new(bytes);
    replay_listed(heap, &mut image, job)
}

// Stripes two devices and runs the lines on them. The unit comes as a number, here and below: what the halves are is shown for a
// number above 0, and of a `Unit` its callers see the number alone.
fn replay_striped<D: Device, E: Device>(
    heap: Global,
    first: &mut D,
    second: &mut E,
    unit: u8,
    job: Job,
) -> Result<Outcome, ReplayFault>
    requires { (1 ≤ unit) × (unit ≤ 64) }
    ensures told { JobTells job.entry (striped unit (D.Source.store first.old) (E.Source.store second.old)) result }
    ensures first { (D.Source.store first.new).at ≡ first_half unit (job_leaves job.entry (striped unit (D.Source.store first.old) (E.Source.store second.old)) result) }
    ensures second { (E.Source.store second.new).at ≡ second_half unit (job_leaves job.entry (striped unit (D.Source.store first.old) (E.Source.store second.old)) result) }
    ensures first_loans { D.Device.loans first.new ≡ D.Device.loans first.old }
    ensures second_loans { E.Device.loans second.new ≡ E.Device.loans second.old }
{
    let unit = Unit::try_from(u32::from(unit)).unwrap();
    let mut stripe = Stripe::with_unit(first, second, unit);
    replay_listed(heap, &mut stripe, job)
}

// On two images in runs of `unit` blocks.
fn replay_pair(
    heap: Global,
    first: &mut [u8],
    second: &mut [u8],
    unit: u8,
    job: Job,
) -> Result<Outcome, ReplayFault>
    requires { (1 ≤ unit) × (unit ≤ 64) }
    ensures told { JobTells job.entry (striped unit (seen first.old) (seen second.old)) result }
    ensures first { (seen first.new).at ≡ first_half unit (job_leaves job.entry (striped unit (seen first.old) (seen second.old)) result) }
    ensures second { (seen second.new).at ≡ second_half unit (job_leaves job.entry (striped unit (seen first.old) (seen second.old)) result) }
{
    let mut a = Image::new(first);
    let mut b = Image::new(second);
    replay_striped(heap, &mut a, &mut b, unit, job)
}

// Runs the lines on the sheet's levels and defects over its images. One image leaves a second slice untouched.
// Two slices and no struct of them, since a clause says of each what it holds at the end.
pub fn replay_images(
    heap: Global,
    first: &mut [u8],
    second: &mut [u8],
    job: Job,
) -> Result<Outcome, ReplayFault>
    ensures told { TellsOr result (calls_of job.entry.body.now) (tier_of (listed job.entry.sheet.now) first.old second.old) }
    ensures first { (seen first.new).at ≡ first_of job.entry.sheet.now.images (blocks_after result (calls_of job.entry.body.now) (device_of (listed job.entry.sheet.now) first.old second.old)) }
    ensures second { (seen second.new).at ≡ second_of job.entry.sheet.now.images (seen second.old).at (blocks_after result (calls_of job.entry.body.now) (device_of (listed job.entry.sheet.now) first.old second.old)) }
{
    match job.sheet.images {
        Images::Single => replay_image(heap, first, job),
        Images::Striped(unit) => replay_pair(heap, first, second, unit, job),
    }
}
