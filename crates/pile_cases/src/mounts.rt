// Which tiers are mounted, and that a refused one is given back.
use device::{Device, DeviceFault, Image, Source};
use pile::{MountFault, Pile, PileFault, Refused};
use refusal::told;
use row::Mark;
use showing::print_rows;
use tier::{DemoteFault, Floor, Level, Tier, Victim};

// A tier under four levels of capacity 1.
pub fn four_over<T>(below: T) -> Level<Level<Level<Level<T>>>> {
    Level::new(Level::new(Level::new(Level::new(below))))
}

// What a mount answers, and the tier back from it.
fn mount_answer<T: Tier>(tier: T) -> (Result<(), MountFault>, T) {
    match Pile::mount(tier) {
        Ok(pile) => (Ok(()), pile.unmount()),
        Err(Refused { tier, fault }) => (Err(fault), tier),
    }
}

// Mounts a tier and prints the answer and what the tier given back says.
fn mount<T: Tier + Drop>(rt: &HostRuntime, tier: T) -> anyhow::Result<T> {
    let (answer, back) = mount_answer(tier);
    let (levels, blocks) = (back.levels(), back.blocks());
    println!(rt;
        "mount of {levels} levels over {blocks} blocks: {}",
        told(answer)
    )?;
    Ok(back)
}

// Takes block 3 into the top level.
pub fn take_in<T: Tier>(tier: &mut T) -> Result<(), PileFault> {
    match tier.demote(Victim::new(3, Mark::Saved), &[7u8; 256]) {
        Ok(()) => Ok(()),
        Err(DemoteFault::Length(victim)) => {
            let _ = victim.open();
            Err(PileFault::Device(DeviceFault::Length))
        }
        Err(DemoteFault::Dropped(dropped)) => Err(PileFault::Dropped(dropped)),
    }
}

// Mounts a tier with block 3 in it, and again without it.
fn mount_twice<T: Tier + Drop>(rt: &HostRuntime, tier: T) -> anyhow::Result<()> {
    let mut back = mount(rt, tier)?;
    print_rows(rt, &back)?;
    let mut buffer = [0u8; 256];
    let lifted = back.lift(3, &mut buffer).is_ok();
    println!(rt; "block 3 lifted: {lifted}, byte {}", buffer[0])?;
    let again = mount(rt, back)?;
    drop(again);
    Ok(())
}

// Four levels over four, and one more over them.
fn eight_and_nine<T: Tier + Drop>(rt: &HostRuntime, four: T) -> anyhow::Result<()> {
    let eight = mount(rt, four_over(four))?;
    let nine = mount(rt, Level::new(eight))?;
    drop(nine);
    Ok(())
}

fn levels_over<D: Device + Drop>(rt: &HostRuntime, device: D) -> anyhow::Result<()> {
    eight_and_nine(rt, four_over(Floor::new(device)))
}

// An entry in the lower of two levels.
fn entry_in_two<D: Device + Drop>(rt: &HostRuntime, device: D) -> anyhow::Result<()> {
    let mut last = Level::new(Floor::new(device));
    println!(rt; "block 3 demoted: {}", told(take_in(&mut last)))?;
    mount_twice(rt, Level::new(last))
}

// Four levels more over a tier with block 3 in it.
fn mount_above<T: Tier + Drop>(rt: &HostRuntime, tier: T) -> anyhow::Result<()> {
    mount_twice(rt, four_over(tier))
}

// An entry in the last of nine levels.
fn entry_in_nine<D: Device + Drop>(rt: &HostRuntime, device: D) -> anyhow::Result<()> {
    let mut last = Level::new(Floor::new(device));
    println!(rt; "block 3 demoted: {}", told(take_in(&mut last)))?;
    mount_above(rt, four_over(last))
}

pub fn many_levels(rt: &HostRuntime) -> anyhow::Result<()> {
    let mut bytes = vec![in rt.alloc(); 0u8; 1024]?;
    levels_over(rt, Image::new(&mut bytes))
}

pub fn entries(rt: &HostRuntime) -> anyhow::Result<()> {
    let mut bytes = vec![in rt.alloc(); 0u8; 1024]?;
    entry_in_two(rt, Image::new(&mut bytes))?;
    entry_in_nine(rt, Image::new(&mut bytes))
}
