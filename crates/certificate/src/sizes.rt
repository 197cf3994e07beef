// How much room levels have, and how many blocks are sound.
ghost use Rattle.std.specs.Prelude.{◌≡◌, ◌≤◌, length};
ghost use Rattle.pile.specs.Laws.{sum_of as summed, sound_count as sounds};

use tier::Tier;

// The summed capacity of the first `count` levels of a tier that has at most 8; of all where it has fewer.
pub fn sum_of<T: Tier>(tier: &T, count: u32) -> u32
    requires { length (T.Tier.model tier.now).rows ≤ 8 }
    ensures { result ≡ summed (T.Tier.model tier.now) count }
{
    (0..count.min(8))
        .filter_map(|above| tier.capacity(above + 1))
        .sum()
}

// How many of the stored blocks are sound.
pub fn sound_count<T: Tier>(tier: &T) -> u32
    ensures { result ≡ sounds (T.Tier.model tier.now).store }
{
    (0..tier.blocks()).filter(|b| tier.is_sound(*b)).count() as u32
}
