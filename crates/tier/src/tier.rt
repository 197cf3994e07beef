// What a tier means. The client above is proved once, from these contracts.
ghost use Rattle.std.specs.Prelude.{◌≡◌, length};
ghost use Rattle.device.specs.Answers.{answer, filled};
ghost use Rattle.device.specs.Loans.{Loans};
ghost use Rattle.tier.specs.Lifts.{lift_answer, lift_buffer, lift_after};
ghost use Rattle.tier.specs.Models.{Model, LawfulModel};
ghost use Rattle.tier.specs.Questions.{level_count, capacity_of, entry_of};
ghost use Rattle.tier.specs.Refusals.{demote_answer, sync_answer};
ghost use Rattle.tier.specs.Syncs.{synced};
ghost use Rattle.tier.specs.Tiers.{demotion, demote_after, save_after, sync_after};

use crate::faults::{DemoteFault, Dropped, LiftFault, Lifted};
use crate::victim::Victim;
use device::DeviceFault;
use row::Tag;

// Stored blocks under any number of levels, each with a row of entries. Levels and places count from 1.
pub trait Tier {
    // the stored blocks and the rows, top first
    ghost model: { Self → Model };

    // the stored blocks are a lawful device's, and every row keeps within its capacity and names no block twice
    ghost lawful: { (x : Self) → LawfulModel (model x) };

    // the caller's memory that the stored blocks stand over, and how
    ghost loans: { Self → Loans };

    // How many blocks are stored.
    fn blocks(&self) -> u32
        ensures { result ≡ (model self.now).store.size };

    // Whether block `b` is stored and not defective.
    fn is_sound(&self, b: u32) -> bool
        ensures { result ≡ (model self.now).store.sound b };

    // How many levels there are; more than 255 are told as 255.
    fn levels(&self) -> u8
        ensures { result ≡ level_count (model self.now).rows };

    // The capacity of a level.
    fn capacity(&self, level: u32) -> Option<u32>
        ensures { result ≡ capacity_of (model self.now).rows level };

    // Number and mark of the entry at a place of a level.
    fn entry(&self, level: u32, place: u32) -> Option<Tag>
        ensures { result ≡ entry_of (model self.now).rows level place };

    // Takes block `b` out of the first level from the top that has it, its bytes into the buffer.
    fn lift(&mut self, b: u32, buffer: &mut [u8]) -> Result<Option<Lifted>, LiftFault>
        ensures answer { result ≡ lift_answer (model self.old) b (length buffer.old) }
        ensures buffer { buffer.new ≡ lift_buffer (model self.old) b buffer.old }
        ensures after { model self.new ≡ lift_after (model self.old) b (length buffer.old) }
        ensures loans { loans self.new ≡ loans self.old };

    // Reads the stored block `b`, as a device does.
    fn load(&self, b: u32, buffer: &mut [u8]) -> Result<(), DeviceFault>
        ensures answer { result ≡ answer (model self.now).store b (length buffer.old) }
        ensures buffer { buffer.new ≡ filled (model self.now).store b buffer.old };

    // Writes the stored block `b`, as a device does.
    fn save(&mut self, b: u32, bytes: &[u8]) -> Result<(), DeviceFault>
        ensures answer { result ≡ answer (model self.old).store b (length bytes.now) }
        ensures after { model self.new ≡ save_after (model self.old) b bytes.now }
        ensures loans { loans self.new ≡ loans self.old };

    // Takes a block in hand into the top level; what falls off its end goes to the levels below.
    fn demote(&mut self, victim: Victim, bytes: &[u8]) -> Result<(), DemoteFault>
        ensures answer { result ≡ demote_answer victim (length bytes.now) (demotion (model self.old) victim bytes.now).dropped }
        ensures after { model self.new ≡ demote_after (model self.old) victim bytes.now }
        ensures loans { loans self.new ≡ loans self.old };

    // Saves every unsaved entry, from the top level's front on, up to the first save that is refused.
    fn sync(&mut self) -> Result<(), Dropped>
        ensures answer { result ≡ sync_answer (synced (model self.old).rows (model self.old).store).dropped }
        ensures after { model self.new ≡ sync_after (model self.old) }
        ensures loans { loans self.new ≡ loans self.old };
}
