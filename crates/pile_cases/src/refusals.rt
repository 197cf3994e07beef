// Refusals of reads and writes, in their order: the buffer, the number, the defect.
use crate::plays::{numbered, one, print_refused, print_tallies};
use device::{Device, Image, Source};
use layers::DefectList;
use pile::Pile;
use refusal::told;
use tier::Tier;

// Reads a block into so many bytes of 5 and prints what they begin with after it, and writes as many bytes of 5.
fn read_and_write<T: Tier>(
    rt: &HostRuntime,
    pile: &mut Pile<T>,
    block: u32,
    length: usize,
) -> anyhow::Result<()> {
    let mut buffer = vec![in rt.alloc(); 5u8; length]?;
    let read = told(pile.read(block, &mut buffer));
    let byte = buffer.first().copied().unwrap_or(0);
    let fives = vec![in rt.alloc(); 5u8; length]?;
    let write = told(pile.write(block, &fives));
    println!(rt; "block {block}, {length} bytes: read {read}, begins with {byte}, write {write}")?;
    Ok(())
}

fn all_refusals<T: Tier>(rt: &HostRuntime, pile: &mut Pile<T>) -> anyhow::Result<()> {
    for (block, length) in [
        (8u32, 255usize),
        (2, 257),
        (3, 255),
        (8, 256),
        (4294967295, 256),
        (2, 256),
        (3, 256),
    ] {
        read_and_write(rt, pile, block, length)?;
    }
    print_tallies(rt, pile)
}

// A frame of its own: `play` prints the rows of the tier at the end, and this one has none to print.
fn over<T: Tier + Drop>(rt: &HostRuntime, tier: T) -> anyhow::Result<()> {
    match Pile::mount(tier) {
        Ok(mut pile) => {
            let printed = all_refusals(rt, &mut pile);
            drop(pile.unmount());
            printed
        }
        Err(refused) => print_refused(rt, refused),
    }
}

// Eight blocks of which block 2 is defective.
pub fn in_order(rt: &HostRuntime) -> anyhow::Result<()> {
    let mut bytes = numbered(rt.alloc(), 8)?;
    let mut list = DefectList::new(rt.alloc(), Image::new(&mut bytes));
    println!(rt; "defect 2 listed: {}", list.list(2).is_ok())?;
    over(rt, one(2, list))
}
