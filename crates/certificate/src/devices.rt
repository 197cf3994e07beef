// Whether a read can tell the stored blocks of two tiers apart.
ghost use Rattle.std.specs.Prelude.{◌≡◌};
ghost use Rattle.device.specs.Below.{all_below};
ghost use Rattle.certificate.specs.Devices.{same_block as one_same, same_devices as all_same};

use device::BLOCK;
use tier::Tier;

// Whether block `b` is defective in both, or sound in both with the same bytes.
fn same_block<F: Tier, S: Tier>(first: &F, second: &S, b: u32) -> bool
    ensures { result ≡ one_same (F.Tier.model first.now).store (S.Tier.model second.now).store b }
{
    if !first.is_sound(b) {
        return !second.is_sound(b);
    }
    let mut one = [0u8; BLOCK];
    let mut other = [0u8; BLOCK];
    match (first.load(b, &mut one), second.load(b, &mut other)) {
        (Ok(()), Ok(())) => one == other,
        _ => false,
    }
}

// Whether each of so many blocks is the same.
fn same_blocks<F: Tier, S: Tier>(first: &F, second: &S, blocks: u32) -> bool
    ensures { result ≡ all_below (one_same (F.Tier.model first.now).store (S.Tier.model second.now).store) blocks }
{
    (0..blocks).all(|b| same_block(first, second, b))
}

// Whether no read can tell them apart.
pub fn same_devices<F: Tier, S: Tier>(first: &F, second: &S) -> bool
    ensures { result ≡ all_same (F.Tier.model first.now).store (S.Tier.model second.now).store }
{
    let blocks = first.blocks();
    blocks == second.blocks() && same_blocks(first, second, blocks)
}
