// Calls on a pile, a line for each, and what the tier holds once it is unmounted.
use pile::{Pile, Refused};
use refusal::{Refusal, told};
use showing::print_rows;
use std::alloc::{AllocError, Global};
use tier::{Floor, Level, Tier};

// A call to make.
#[derive(Clone, Copy)]
pub enum Call {
    Read(u32),
    // A block of copies of one byte.
    Write(u32, u8),
    Sync,
}

// The bytes of so many blocks: block b is copies of 10 + b.
pub fn numbered(heap: Global, blocks: u8) -> Result<Vec<u8>, AllocError> {
    let mut bytes = Vec::new(heap);
    for b in 0..blocks {
        bytes.extend_from_slice(&[b.saturating_add(10); 256])?;
    }
    Ok(bytes)
}

// A level of a capacity over a tier. `replaying` has one for capacities that are known to be from 1 to 16, which a caller
// here would have to prove of every constant that it passes on.
pub fn level_of<T>(capacity: u32, below: T) -> Level<T> {
    let mut level = Level::new(below);
    let _ = level.set_capacity(capacity);
    level
}

// One level over a device.
pub fn one<D>(capacity: u32, device: D) -> Level<Floor<D>> {
    level_of(capacity, Floor::new(device))
}

// Two levels over a device.
pub fn two<D>(upper: u32, lower: u32, device: D) -> Level<Level<Floor<D>>> {
    level_of(upper, one(lower, device))
}

// Prints the tallies, top level first, and ends the line.
pub fn print_tallies<T: Tier>(rt: &HostRuntime, pile: &Pile<T>) -> anyhow::Result<()> {
    let tallies = pile.tallies();
    print!(rt; "hits")?;
    for hits in tallies.by_level() {
        print!(rt; " {hits}")?;
    }
    println!(rt; ", floor {}", tallies.floor())?;
    Ok(())
}

// Makes a call and prints its answer and the tallies after it.
fn make_call<T: Tier>(rt: &HostRuntime, pile: &mut Pile<T>, call: Call) -> anyhow::Result<()> {
    match call {
        Call::Read(b) => {
            let mut buffer = [0u8; 256];
            let answer = told(pile.read(b, &mut buffer));
            print!(rt; "read {b}: {answer}, byte {}; ", buffer[0])?;
        }
        Call::Write(b, fill) => {
            print!(rt; "write {b}: {}; ", told(pile.write(b, &[fill; 256])))?;
        }
        Call::Sync => print!(rt; "sync: {}; ", told(pile.sync()))?,
    }
    print_tallies(rt, pile)
}

fn make_calls<T: Tier>(rt: &HostRuntime, pile: &mut Pile<T>, calls: &[Call]) -> anyhow::Result<()> {
    for c in calls {
        make_call(rt, pile, *c)?;
    }
    Ok(())
}

// Prints why a tier was not mounted.
pub fn print_refused<T: Drop>(rt: &HostRuntime, refused: Refused<T>) -> anyhow::Result<()> {
    let Refused { fault, tier } = refused;
    drop(tier);
    println!(rt; "not mounted: {}", fault.number())?;
    Ok(())
}

// Mounts a tier, makes the calls, unmounts it and prints its rows.
pub fn play<T: Tier + Drop>(rt: &HostRuntime, tier: T, calls: &[Call]) -> anyhow::Result<()> {
    match Pile::mount(tier) {
        Ok(mut pile) => {
            let printed = make_calls(rt, &mut pile, calls);
            let tier = pile.unmount();
            printed?;
            print_rows(rt, &tier)
        }
        Err(refused) => print_refused(rt, refused),
    }
}
