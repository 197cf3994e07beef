// Which touches count where, and when the device has what was written.
use crate::plays::{Call, numbered, one, play, two};
use device::{Device, Image};
use showing::first_byte;
use tier::Floor;

// Writes of a block that the first level, the second or none has.
fn counted<D: Device + Drop>(rt: &HostRuntime, device: D) -> anyhow::Result<()> {
    let calls = [
        Call::Write(4, 44),
        Call::Write(4, 45),
        Call::Read(5),
        Call::Write(4, 46),
        Call::Sync,
    ];
    play(rt, two(1, 1, device), &calls)
}

pub fn counts(rt: &HostRuntime) -> anyhow::Result<()> {
    let mut bytes = numbered(rt.alloc(), 8)?;
    counted(rt, Image::new(&mut bytes))?;
    println!(rt; "stored: block 4 begins with {}", first_byte(&bytes, 4))?;
    Ok(())
}

// Makes calls over one level of 2 and prints what the device has of block 3.
fn stored_after(rt: &HostRuntime, calls: &[Call]) -> anyhow::Result<()> {
    let mut bytes = numbered(rt.alloc(), 8)?;
    play(rt, one(2, Image::new(&mut bytes)), calls)?;
    println!(rt; "stored: block 3 begins with {}", first_byte(&bytes, 3))?;
    Ok(())
}

// A block that is written and read again: with no sync, with one, and once it has fallen off the level.
pub fn marks(rt: &HostRuntime) -> anyhow::Result<()> {
    stored_after(rt, &[Call::Write(3, 33), Call::Read(5), Call::Read(3)])?;
    stored_after(rt, &[Call::Write(3, 33), Call::Sync, Call::Read(3)])?;
    stored_after(rt, &[Call::Write(3, 33), Call::Read(5), Call::Read(6)])
}

pub fn no_levels(rt: &HostRuntime) -> anyhow::Result<()> {
    let mut bytes = numbered(rt.alloc(), 8)?;
    let calls = [
        Call::Read(1),
        Call::Write(1, 99),
        Call::Read(1),
        Call::Sync,
        Call::Read(8),
    ];
    play(rt, Floor::new(Image::new(&mut bytes)), &calls)?;
    println!(rt; "stored: block 1 begins with {}", first_byte(&bytes, 1))?;
    Ok(())
}
