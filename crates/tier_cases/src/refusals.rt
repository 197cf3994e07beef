// Refusals of the stored blocks, through two levels.
use crate::levels::demote;
use device::{Device, Image};
use layers::DefectList;
use refusal::Refusal;
use row::Mark;
use showing::{first_byte, print_rows};
use tier::{Floor, Level, Tier};

// Eight blocks, of which block 2 is listed as a defect.
fn defect_two<'a>(rt: &HostRuntime, bytes: &'a mut [u8]) -> anyhow::Result<DefectList<Image<'a>>> {
    let mut list = DefectList::new(rt.alloc(), Image::new(bytes));
    println!(rt; "defect 2 listed: {}", list.list(2).is_ok())?;
    Ok(list)
}

// The unsaved block 2 is pushed through two levels of capacity 1 onto a defect.
fn push_through<D: Device + Drop>(rt: &HostRuntime, device: D) -> anyhow::Result<()> {
    let mut tier = Level::new(Level::new(Floor::new(device)));
    demote(rt, &mut tier, 2, Mark::Unsaved, 2)?;
    demote(rt, &mut tier, 3, Mark::Unsaved, 3)?;
    demote(rt, &mut tier, 4, Mark::Unsaved, 4)?;
    demote(rt, &mut tier, 9, Mark::Unsaved, 9)?;
    demote(rt, &mut tier, 5, Mark::Unsaved, 5)?;
    demote(rt, &mut tier, 6, Mark::Unsaved, 6)?;
    print_rows(rt, &tier)
}

pub fn defect_below(rt: &HostRuntime) -> anyhow::Result<()> {
    let mut bytes = vec![in rt.alloc(); 0u8; 2048]?;
    let list = defect_two(rt, &mut bytes)?;
    push_through(rt, list)?;
    let (three, four) = (first_byte(&bytes, 3), first_byte(&bytes, 4));
    println!(rt; "stored: block 3 begins with {three}, block 4 with {four}")?;
    Ok(())
}

// Four unsaved entries, the second of which cannot be saved: the first is saved, the others stay.
fn sync_over<D: Device + Drop>(rt: &HostRuntime, device: D) -> anyhow::Result<()> {
    let mut tier = Level::new(Level::new(Floor::new(device)));
    let _ = tier.set_capacity(3).is_ok();
    demote(rt, &mut tier, 1, Mark::Unsaved, 1)?;
    demote(rt, &mut tier, 2, Mark::Unsaved, 2)?;
    demote(rt, &mut tier, 3, Mark::Unsaved, 3)?;
    demote(rt, &mut tier, 4, Mark::Saved, 4)?;
    match tier.sync() {
        Ok(()) => println!(rt; "sync: done")?,
        Err(dropped) => println!(rt; "sync: refused {}, {dropped}", dropped.number())?,
    }
    print_rows(rt, &tier)
}

pub fn stopped_sync(rt: &HostRuntime) -> anyhow::Result<()> {
    let mut bytes = vec![in rt.alloc(); 0u8; 2048]?;
    let list = defect_two(rt, &mut bytes)?;
    sync_over(rt, list)?;
    let (three, one) = (first_byte(&bytes, 3), first_byte(&bytes, 1));
    println!(rt; "stored: block 3 begins with {three}, block 1 with {one}")?;
    Ok(())
}
