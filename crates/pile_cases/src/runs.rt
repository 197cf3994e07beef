// The same touches over layouts of equal sums.
use crate::plays::{Call, numbered, one, play, two};
use device::{Device, Image};
use tier::Tier;

fn touches<T: Tier + Drop>(rt: &HostRuntime, tier: T) -> anyhow::Result<()> {
    let calls = [
        Call::Read(0),
        Call::Read(1),
        Call::Read(2),
        Call::Read(0),
        Call::Read(3),
        Call::Read(4),
        Call::Read(1),
        Call::Read(5),
        Call::Read(2),
        Call::Read(2),
    ];
    play(rt, tier, &calls)
}

// Over any device: a call at two levels that stand on a lent image gets no proof, though one at a single level does.
fn over_two<D: Device + Drop>(
    rt: &HostRuntime,
    upper: u32,
    lower: u32,
    device: D,
) -> anyhow::Result<()> {
    touches(rt, two(upper, lower, device))
}

pub fn layouts(rt: &HostRuntime) -> anyhow::Result<()> {
    let mut bytes = numbered(rt.alloc(), 6)?;
    over_two(rt, 2, 3, Image::new(&mut bytes))?;
    touches(rt, one(5, Image::new(&mut bytes)))?;
    over_two(rt, 3, 2, Image::new(&mut bytes))
}
