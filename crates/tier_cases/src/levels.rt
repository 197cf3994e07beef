// Capacities, demotions and lifts.
use device::{Device, Image};
use refusal::{Refusal, told};
use row::Mark;
use showing::{InWords, print_rows};
use tier::{DemoteFault, Floor, Level, Lifted, Tier, Victim};

// Demotes a block of one byte's copies and prints what came of it.
pub fn demote<T: Tier>(
    rt: &HostRuntime,
    tier: &mut T,
    number: u32,
    mark: Mark,
    fill: u8,
) -> anyhow::Result<()> {
    let bytes = [fill; 256];
    match tier.demote(Victim::new(number, mark), &bytes) {
        Ok(()) => println!(rt; "demote {number}: taken")?,
        Err(DemoteFault::Length(victim)) => {
            let (block, _) = victim.open();
            println!(rt; "demote {block}: refused 1")?;
        }
        Err(DemoteFault::Dropped(dropped)) => {
            println!(rt; "demote {number}: refused {}, {dropped}", dropped.number())?;
        }
    }
    Ok(())
}

// Lifts a block and prints where it was.
pub fn lift<T: Tier>(rt: &HostRuntime, tier: &mut T, number: u32) -> anyhow::Result<()> {
    let mut buffer = [0u8; 256];
    match tier.lift(number, &mut buffer) {
        Ok(Some(Lifted { level, mark })) => {
            println!(rt;
                "lift {number}: level {level}, {}, byte {}",
                InWords(mark),
                buffer[0]
            )?
        }
        Ok(None) => println!(rt; "lift {number}: none")?,
        Err(fault) => println!(rt; "lift {number}: refused {}", fault.number())?,
    }
    Ok(())
}

// The capacity's edges.
pub fn capacities(rt: &HostRuntime) -> anyhow::Result<()> {
    let mut bytes = vec![in rt.alloc(); 0u8; 1024]?;
    let mut level = Level::new(Floor::new(Image::new(&mut bytes)));
    for capacity in [0u32, 1, 16, 17] {
        println!(rt;
            "set capacity {capacity}: {}",
            told(level.set_capacity(capacity))
        )?;
    }
    demote(rt, &mut level, 1, Mark::Saved, 4)?;
    println!(rt;
        "set capacity 2 with an entry: {}",
        told(level.set_capacity(2))
    )?;
    let mut short = [0u8; 255];
    println!(rt;
        "lift into 255 bytes refused: {}",
        level.lift(1, &mut short).is_err()
    )?;
    print_rows(rt, &level)
}

// Two levels of 2 and 1.
fn two_levels<D: Device + Drop>(rt: &HostRuntime, device: D) -> anyhow::Result<()> {
    let mut tier = Level::new(Level::new(Floor::new(device)));
    println!(rt; "capacity 2 set: {}", tier.set_capacity(2).is_ok())?;
    demote(rt, &mut tier, 4, Mark::Saved, 44)?;
    demote(rt, &mut tier, 7, Mark::Unsaved, 77)?;
    print_rows(rt, &tier)?;
    demote(rt, &mut tier, 9, Mark::Saved, 99)?;
    print_rows(rt, &tier)?;
    lift(rt, &mut tier, 4)?;
    lift(rt, &mut tier, 4)?;
    lift(rt, &mut tier, 7)?;
    print_rows(rt, &tier)
}

pub fn demotions(rt: &HostRuntime) -> anyhow::Result<()> {
    let mut bytes = vec![in rt.alloc(); 0u8; 2560]?;
    two_levels(rt, Image::new(&mut bytes))
}
