// What the case programs print of tiers.
#![tactic(auto)]

ghost use Rattle.std.specs.Prelude.{◌≡◌, ◌*◌, slice_get, unwrap_or};
ghost use Rattle.showing.specs.Words.{mark_text};

use device::BLOCK;
use row::Mark;
use std::fmt;
use tier::Tier;

// The most places of a level.
const PLACES: u32 = 16;

// A mark in words.
#[derive(Drop)]
pub struct InWords(pub Mark);

impl fmt::Display for InWords {
    ghost output = { λ w. mark_text w.0 };

    fn fmt<W: fmt::Write>(&self, f: &mut fmt::Formatter<W>) -> fmt::Result {
        f.write_str(match self.0 {
            Mark::Saved => "saved",
            Mark::Unsaved => "unsaved",
        })
    }
}

// Prints the rows of a tier, a line for each level.
pub fn print_rows<T: Tier>(rt: &HostRuntime, tier: &T) -> anyhow::Result<()> {
    for level in 1..=u32::from(tier.levels()) {
        print!(rt; "level {level} of {}:", tier.capacity(level).unwrap_or(0))?;
        for tag in (1..=PLACES).filter_map(|place| tier.entry(level, place)) {
            print!(rt; " {} {}", tag.number, InWords(tag.mark))?;
        }
        println!(rt; "")?;
    }
    Ok(())
}

// The first byte of a block, or 0 where there is no such block.
pub fn first_byte(bytes: &[u8], block: u8) -> u8
    ensures { result ≡ unwrap_or (slice_get bytes.now (block * 256)) 0 }
{
    bytes.get(usize::from(block) * BLOCK).copied().unwrap_or(0)
}
