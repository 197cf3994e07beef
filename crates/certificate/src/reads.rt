// The reads that tell two sums of capacities apart.
ghost use Rattle.std.specs.Prelude.{◌≡◌, reverse, take, IfOk, OnOk};
ghost use Rattle.std.specs.Vec.{vec_items as items};
ghost use Rattle.pile.specs.Reads.{passing, again, telling as told};

use std::alloc::{AllocError, Global};
use tier::Tier;

// The greatest numbers of sound blocks, the greatest first, at most `count`.
fn greatest_sound<T: Tier>(heap: Global, tier: &T, count: usize) -> Result<Vec<u32>, AllocError>
    ensures { IfOk result (λ v. items v ≡ take count (passing (T.Tier.model tier.now).store.sound (T.Tier.model tier.now).store.size)) }
{
    let mut found = Vec::new(heap);
    for b in (0..tier.blocks()).rev() {
        if found.len() == count {
            break;
        }
        if tier.is_sound(b) {
            found.push(b)?;
        }
    }
    Ok(found)
}

// The numbers in reverse, and then the first of those again.
fn turn_back(numbers: &mut Vec<u32>) -> Result<(), AllocError>
    ensures { OnOk result (items numbers.new ≡ again (reverse (items numbers.old))) }
{
    numbers.reverse();
    if let Some(first) = numbers.first().copied() {
        numbers.push(first)?;
    }
    Ok(())
}

// Reads that room for so many blocks does not serve, and that any more room does.
pub fn telling<T: Tier>(heap: Global, tier: &T, room: u32) -> Result<Vec<u32>, AllocError>
    ensures { IfOk result (λ v. items v ≡ told (T.Tier.model tier.now).store room) }
{
    let mut reads = greatest_sound(heap, tier, room as usize + 1)?;
    turn_back(&mut reads)?;
    Ok(reads)
}
