// Replaying from bytes to bytes.
ghost use Rattle.std.specs.Prelude.{◌≡◌, ◌≤◌, false, [], length, is_ok, if◌then◌else◌, Ok};
ghost use Rattle.std.specs.Vec.{vec_items as items, vec_capacity as room};
ghost use Rattle.device.specs.Bytes.{of_bytes as blocks};
ghost use Rattle.formats.specs.Seen.{listed};
ghost use Rattle.pile.specs.Tallies.{hits_of as served};
ghost use Rattle.restoring.specs.Stacks.{BlocksTell};
ghost use Rattle.replaying.specs.Calls.{calls_of, EveryLine};
ghost use Rattle.replaying.specs.Layouts.{tier_of, first_of, second_of};
ghost use Rattle.replaying.specs.Replays.{level_tallies, told_of, replay_answer, plan_of, left_on, first_left, second_left, memory_or};
ghost use Rattle.replaying.specs.Seen.{seen};

use crate::fault::ReplayFault;
use crate::images::replay_images;
use crate::job::Job;
use formats::{LevelTally, judge, read_sheet};
use pile::Tallies;
use std::alloc::Global;

// What a replay tells.
#[derive(Drop)]
pub struct Replayed {
    // The capacity and the hits of each level, top first.
    pub levels: Vec<LevelTally>,
    // The touches that no level served.
    pub floor: u32,
    // The reads and writes that were refused.
    pub refused: u64,
}

// Puts each level's capacity and hits into an empty list that has room for them.
// By the level's number, since a zip with the hits would leave out a level that has no tally.
fn tally(mut levels: Vec<LevelTally>, capacities: &[u8], tallies: &Tallies) -> Vec<LevelTally>
    requires empty { items levels ≡ [] }
    requires room { length capacities.now ≤ room levels }
    ensures { items result ≡ level_tallies capacities.now (served tallies.now) }
{
    for (i, capacity) in capacities.iter().enumerate() {
        levels.push_reserved(LevelTally {
            capacity: u32::from(*capacity),
            hits: tallies.hits(i + 1).unwrap_or(0),
        });
    }
    levels
}

// Replays the lines on what a sheet lists. All memory is found before the first line runs.
fn replay_job(
    heap: Global,
    job: Job,
    first: &mut [u8],
    second: &mut [u8],
) -> Result<Replayed, ReplayFault>
    ensures answer { seen result ≡ memory_or result (Ok (told_of (items job.entry.sheet.now.levels) (calls_of job.entry.body.now) (tier_of (listed job.entry.sheet.now) first.old second.old))) }
    ensures first { (blocks first.new).at ≡ (if is_ok result then first_of job.entry.sheet.now.images (left_on (listed job.entry.sheet.now) first.old second.old job.entry.body.now) else (blocks first.old).at) }
    ensures second { (blocks second.new).at ≡ (if is_ok result then second_of job.entry.sheet.now.images (blocks second.old).at (left_on (listed job.entry.sheet.now) first.old second.old job.entry.body.now) else (blocks second.old).at) }
{
    let levels = Vec::with_capacity(heap, job.sheet.levels.len())?;
    let outcome = replay_images(heap, first, second, job)?;
    Ok(Replayed {
        levels: tally(levels, &job.sheet.levels, &outcome.tallies),
        floor: outcome.tallies.floor(),
        refused: outcome.refused,
    })
}

// Reads the sheet, judges the trace and replays it.
fn replay_all(
    heap: Global,
    sheet: &[u8],
    first: &mut [u8],
    second: &mut [u8],
    trace: &[u8],
) -> Result<Replayed, ReplayFault>
    ensures answer { seen result ≡ memory_or result (replay_answer sheet.now first.old second.old trace.now) }
    ensures first { (blocks first.new).at ≡ (if is_ok result then first_left (plan_of sheet.now trace.now) first.old second.old else (blocks first.old).at) }
    ensures second { (blocks second.new).at ≡ (if is_ok result then second_left (plan_of sheet.now trace.now) first.old second.old else (blocks second.old).at) }
{
    let sheet = read_sheet(heap, sheet)?;
    let body = judge(trace)?;
    let job = Job {
        sheet: &sheet,
        body,
    };
    replay_job(heap, job, first, second)
}

// Replays a trace on the levels, defects and images that a sheet lists, and tells the hits of each level, the touches that
// none served and the refused lines. The sheet is checked first, then the whole trace. The slices then hold what the bare
// device would hold had every accepted write gone straight to it; a refusal leaves both. One image never reaches the second slice.
pub fn replay(
    heap: Global,
    sheet: &[u8],
    first: &mut [u8],
    second: &mut [u8],
    trace: &[u8],
) -> Result<Replayed, ReplayFault>
    ensures answer { seen result ≡ memory_or result (replay_answer sheet.now first.old second.old trace.now) }
    ensures first { (blocks first.new).at ≡ (if is_ok result then first_left (plan_of sheet.now trace.now) first.old second.old else (blocks first.old).at) }
    ensures second { (blocks second.new).at ≡ (if is_ok result then second_left (plan_of sheet.now trace.now) first.old second.old else (blocks second.old).at) }
    ensures refused { is_ok result ≡ false → (first.new ≡ first.old) × (second.new ≡ second.old) }
    ensures told { BlocksTell }
    ensures lines { EveryLine trace.now }
{
    replay_all(heap, sheet, first, second, trace)
}
