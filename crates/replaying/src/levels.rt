// Running the lines of a trace on levels over a device.
ghost use Rattle.std.specs.Prelude.{◌≡◌, ◌≤◌, [], ◌∷◌, Ok};
ghost use Rattle.std.specs.Vec.{vec_items as items};
ghost use Rattle.pile.specs.Bare.{bare, bare_after};
ghost use Rattle.pile.specs.Mounts.{mount_answer};
ghost use Rattle.row.specs.Rows.{model as kept};
ghost use Rattle.tier.specs.Floors.{floor_model};
ghost use Rattle.replaying.specs.Calls.{calls_of};
ghost use Rattle.replaying.specs.Layouts.{empty_row, tier_over};
ghost use Rattle.replaying.specs.Bounds.{Capacities};
ghost use Rattle.replaying.specs.Outcomes.{Tells, stacked, synced_store};

use crate::job::Job;
use crate::running::{Outcome, Trace};
use crate::work::{Done, Under, Work};
use device::Device;
use tier::{Floor, Level, Tier};

// An empty level of a capacity from 1 to 16.
pub fn level_of<T>(below: T, capacity: u8) -> Level<T>
    requires some { 1 ≤ capacity }
    requires most { capacity ≤ 16 }
    ensures row { kept result.row ≡ empty_row capacity }
    ensures below { result.below ≡ below }
{
    let mut level = Level::new(below);
    let _ = level.set_capacity(u32::from(capacity));
    level
}

// Does the work on empty levels of these capacities over a tier, the first one on top.
// By cases and no loop, since each level more is a type of its own.
pub fn on_levels<T: Tier, W: Work>(tier: T, capacities: &[u8], work: W) -> Done<T, W::Told>
    requires lawful { Capacities capacities.now }
    requires needs { W.needs work (stacked capacities.now (T.Tier.model tier)) }
    ensures gives { W.gives work (stacked capacities.now (T.Tier.model tier)) result.told (T.Tier.model result.tier).store }
    ensures loans { T.Tier.loans result.tier ≡ T.Tier.loans tier }
{
    match capacities {
        [] => work.on(tier),
        [a] => Under::new(work, *a).on(tier),
        [a, b] => Under::new(Under::new(work, *a), *b).on(tier),
        [a, b, c] => Under::new(Under::new(Under::new(work, *a), *b), *c).on(tier),
        [a, b, c, d] => {
            let work = Under::new(Under::new(work, *a), *b);
            Under::new(Under::new(work, *c), *d).on(tier)
        }
        _ => unreachable(),
    }
}

// Runs a job's lines on its levels over the floor of a device.
fn replay_floor<D: Device>(device: &mut D, job: Job) -> Outcome
    requires { mount_answer (stacked (items job.sheet.now.levels) (floor_model (D.Source.store device.old))) ≡ Ok tt }
    ensures told { Tells result (calls_of job.entry.body.now) (stacked (items job.entry.sheet.now.levels) (floor_model (D.Source.store device.old))) }
    ensures after { D.Source.store device.new ≡ synced_store (calls_of job.entry.body.now) (stacked (items job.entry.sheet.now.levels) (floor_model (D.Source.store device.old))) }
    ensures loans { D.Device.loans device.new ≡ D.Device.loans device.old }
{
    let Done { tier, told } = on_levels(
        Floor::new(device),
        &job.sheet.levels,
        Trace { body: job.body },
    );
    let _device = tier.into_device();
    told
}

// Runs a job's lines on its levels over a device. The device then holds what it would hold without them.
pub fn replay_levels<D: Device>(device: &mut D, job: Job) -> Outcome
    ensures told { Tells result (calls_of job.entry.body.now) (tier_over (items job.entry.sheet.now.levels) (D.Source.store device.old)) }
    ensures after { D.Source.store device.new ≡ (bare_after (calls_of job.entry.body.now) (bare (D.Source.store device.old))).store }
    ensures loans { D.Device.loans device.new ≡ D.Device.loans device.old }
{
    replay_floor(device, job)
}
