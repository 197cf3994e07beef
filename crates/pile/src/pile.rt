// A pile: a mounted tier with its tallies. It is what a program reads and writes through.
ghost use Rattle.std.specs.Prelude.{◌≡◌, ◌<◌, length, Ok, Err};
ghost use Rattle.std.specs.Option.{option_map};
ghost use Rattle.device.specs.Answers.{answer};
ghost use Rattle.tier.specs.Lifts.{found, lifted, bytes_or as contents};
ghost use Rattle.tier.specs.Demotions.{demoted};
ghost use Rattle.tier.specs.Tiers.{model_of};
ghost use Rattle.pile.specs.Piles.{read, write, sync, answered, stepped, admitted, counted, touches, mounted, fetched, dropped_result};
ghost use Rattle.pile.specs.Mounts.{has_entry as holding, mount_answer};
ghost use Rattle.pile.specs.Mounted.{pile_model as pile};

use crate::faults::{MountFault, PileFault, refused_demotion};
use crate::tallies::{LEVELS, Tallies};
use device::{BLOCK, admit};
use row::Mark;
use tier::{Tier, Victim};

// The most touches of a pile.
const TOUCHES: u64 = 4000000000;

// A mounted tier with its tallies. From mounting on only its calls reach the tier. It cannot be let go with blocks in it
// that the device does not have yet: it ends by `unmount`, which gives the tier back.
pub struct Pile<T> {
    tier: T,
    tallies: Tallies,
}

// A tier that was not mounted, and why. The tier stands first, as in a pile: clang takes more than half an hour over a tier of
// eight levels that is moved to one place of an `Ok` and to another of an `Err`.
pub struct Refused<T> {
    pub tier: T,
    pub fault: MountFault,
}

// Whether any of the levels has an entry.
fn has_entry<T: Tier>(tier: &T, levels: u8) -> bool
    requires { length (T.Tier.model tier.now).rows ≡ levels }
    ensures { result ≡ holding (T.Tier.model tier.now).rows }
{
    (0..levels).any(|above| tier.entry(u32::from(above) + 1, 1).is_some())
}

// Why a tier cannot be mounted, if it cannot.
pub fn check_mount<T: Tier>(tier: &T) -> Result<(), MountFault>
    ensures { result ≡ mount_answer (T.Tier.model tier.now) }
{
    let levels = tier.levels();
    if usize::from(levels) > LEVELS {
        return Err(MountFault::Levels);
    }
    if has_entry(tier, levels) {
        return Err(MountFault::Entries);
    }
    Ok(())
}

impl<T: Tier> Pile<T> {
    // Mounts a tier that has at most 8 levels and no entry; another is given back.
    pub fn mount(tier: T) -> Result<Pile<T>, Refused<T>>
        ensures { elim result [ Ok p ↦ (mount_answer (T.Tier.model tier) ≡ Ok tt) × (p.tier ≡ tier) × (pile T.Tier.model p ≡ mounted (T.Tier.model tier)) | Err e ↦ (mount_answer (T.Tier.model tier) ≡ Err e.fault) × (e.tier ≡ tier) ] }
    {
        match check_mount(&tier) {
            Ok(()) => {
                let tallies = Tallies::new(usize::from(tier.levels()));
                Ok(Pile { tier, tallies })
            }
            Err(fault) => Err(Refused { fault, tier }),
        }
    }

    // Checks a read or a write of block `b` with a buffer of `len` bytes.
    fn admit_touch(&self, b: u32, len: usize) -> Result<(), PileFault>
        ensures { result ≡ admitted (pile T.Tier.model self.now) b len }
    {
        admit(len, b, self.tier.blocks(), self.tier.is_sound(b))?;
        if self.tallies.touches() >= TOUCHES {
            return Err(PileFault::Full);
        }
        Ok(())
    }

    // Takes block `b` out of the level that has it, and counts the touch for that level, or for the floor. Buffers are slices, here
    // and below, as a tier's are.
    fn lift(&mut self, b: u32, buffer: &mut [u8]) -> Option<Mark>
        requires whole { length buffer.old ≡ 256 }
        requires few { touches (pile T.Tier.model self.old) < 4000000000 }
        ensures answer { result ≡ option_map (λ f. f.entry.mark) (found b (T.Tier.model self.old.tier).rows) }
        ensures buffer { buffer.new ≡ contents (found b (T.Tier.model self.old.tier).rows) buffer.old }
        ensures after { pile T.Tier.model self.new ≡ counted (found b (T.Tier.model self.old.tier).rows) (record { store = (T.Tier.model self.old.tier).store; rows = lifted b (T.Tier.model self.old.tier).rows }) (pile T.Tier.model self.old) }
        ensures loans { T.Tier.loans self.new.tier ≡ T.Tier.loans self.old.tier }
    {
        let lifted = self.tier.lift(b, buffer).unwrap_or(None);
        self.tallies.count(lifted.map(|lifted| lifted.level));
        lifted.map(|lifted| lifted.mark)
    }

    // Demotes a block from the top.
    fn settle(&mut self, b: u32, mark: Mark, bytes: &[u8]) -> Result<(), PileFault>
        requires { length bytes.now ≡ 256 }
        ensures answer { result ≡ dropped_result (demoted (T.Tier.model self.old.tier).rows (T.Tier.model self.old.tier).store (record { number = b; bytes = bytes.now; mark = mark })).dropped }
        ensures tier { T.Tier.model self.new.tier ≡ model_of (demoted (T.Tier.model self.old.tier).rows (T.Tier.model self.old.tier).store (record { number = b; bytes = bytes.now; mark = mark })) }
        ensures tallies { self.new.tallies ≡ self.old.tallies }
        ensures loans { T.Tier.loans self.new.tier ≡ T.Tier.loans self.old.tier }
    {
        self.tier
            .demote(Victim::new(b, mark), bytes)
            .map_err(refused_demotion)
    }

    // Takes block `b` from the level that has it, or else from the stored blocks, its bytes into the buffer.
    fn fetch(&mut self, b: u32, buffer: &mut [u8]) -> Result<Mark, PileFault>
        requires there { answer (T.Tier.model self.old.tier).store b (length buffer.old) ≡ Ok tt }
        requires few { touches (pile T.Tier.model self.old) < 4000000000 }
        ensures answer { result ≡ Ok (fetched (found b (T.Tier.model self.old.tier).rows) b ((T.Tier.model self.old.tier).store.at b)).mark }
        ensures buffer { buffer.new ≡ (fetched (found b (T.Tier.model self.old.tier).rows) b ((T.Tier.model self.old.tier).store.at b)).bytes }
        ensures after { pile T.Tier.model self.new ≡ counted (found b (T.Tier.model self.old.tier).rows) (record { store = (T.Tier.model self.old.tier).store; rows = lifted b (T.Tier.model self.old.tier).rows }) (pile T.Tier.model self.old) }
        ensures loans { T.Tier.loans self.new.tier ≡ T.Tier.loans self.old.tier }
    {
        match self.lift(b, buffer) {
            Some(mark) => Ok(mark),
            None => {
                self.tier.load(b, buffer)?;
                Ok(Mark::Saved)
            }
        }
    }

    // Reads block `b` into the buffer. The block is then the latest of the top level.
    pub fn read(&mut self, b: u32, buffer: &mut [u8]) -> Result<(), PileFault>
        ensures answer { result ≡ (answered (read b buffer.old) (pile T.Tier.model self.old)).result }
        ensures buffer { buffer.new ≡ (answered (read b buffer.old) (pile T.Tier.model self.old)).buffer }
        ensures after { pile T.Tier.model self.new ≡ stepped (read b buffer.old) (pile T.Tier.model self.old) }
        ensures loans { T.Tier.loans self.new.tier ≡ T.Tier.loans self.old.tier }
    {
        self.admit_touch(b, buffer.len())?;
        let mark = self.fetch(b, buffer)?;
        self.settle(b, mark, buffer)
    }

    // Writes block `b`. It is then the latest of the top level, and the device has it when it falls off the last level or is synced.
    pub fn write(&mut self, b: u32, bytes: &[u8]) -> Result<(), PileFault>
        ensures answer { result ≡ (answered (write b bytes.now) (pile T.Tier.model self.old)).result }
        ensures after { pile T.Tier.model self.new ≡ stepped (write b bytes.now) (pile T.Tier.model self.old) }
        ensures loans { T.Tier.loans self.new.tier ≡ T.Tier.loans self.old.tier }
    {
        self.admit_touch(b, bytes.len())?;
        let mut old = [0u8; BLOCK];
        let _ = self.lift(b, &mut old);
        self.settle(b, Mark::Unsaved, bytes)
    }

    // Saves every block that the device does not have yet. It counts for no level and moves no entry.
    pub fn sync(&mut self) -> Result<(), PileFault>
        ensures answer { result ≡ (answered sync (pile T.Tier.model self.old)).result }
        ensures after { pile T.Tier.model self.new ≡ stepped sync (pile T.Tier.model self.old) }
        ensures loans { T.Tier.loans self.new.tier ≡ T.Tier.loans self.old.tier }
    {
        Ok(self.tier.sync()?)
    }

    // The tallies since mounting.
    pub fn tallies(&self) -> &Tallies
        ensures { result.now ≡ self.now.tallies }
    {
        &self.tallies
    }

    // Ends the pile and gives its tier back.
    pub fn unmount(self) -> T
        ensures { result ≡ self.tier }
    {
        let Pile { tier, tallies } = self;
        drop(tallies);
        tier
    }
}
