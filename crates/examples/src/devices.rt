// Images, archives, stripes and defect lists at their edges.
use device::{Archive, Device, Image, Source};
use layers::{DefectFault, DefectList, Stripe};
use refusal::{Refusal, told};

// Blocks of images and archives of a few lengths, and a write and a read of block 0.
pub fn lengths(rt: &HostRuntime) -> anyhow::Result<()> {
    for length in [0usize, 255, 256, 257, 511, 512] {
        let mut bytes = vec![in rt.alloc(); 7u8; length]?;
        let archive = Archive::new(&bytes).blocks();
        let block = [9u8; 256];
        let mut buffer = [0u8; 256];
        let mut image = Image::new(&mut bytes);
        let blocks = image.blocks();
        let write = told(image.write(0, &block));
        let read = told(image.read(0, &mut buffer));
        let first = buffer[0];
        let short = told(image.read(0, &mut buffer[0..255]));
        println!(rt;
            "length {length}: archive {archive}, image {blocks}, write {write}, read {read} gives {first}, short buffer {short}"
        )?;
    }
    Ok(())
}

// More bytes than the most blocks.
pub fn over_long(rt: &HostRuntime) -> anyhow::Result<()> {
    let mut bytes = vec![in rt.alloc(); 1u8; 268435969]?;
    let archive = Archive::new(&bytes).blocks();
    let block = [2u8; 256];
    let mut image = Image::new(&mut bytes);
    let blocks = image.blocks();
    let last = told(image.write(1048575, &block));
    let past = told(image.write(1048576, &block));
    let tail = bytes.last().copied().unwrap_or(0);
    println!(rt;
        "over-long: archive {archive}, image {blocks}, last block {last}, one past {past}, tail byte {tail}"
    )?;
    Ok(())
}

// Units at the edges, over images of 5 and 7 blocks.
pub fn units(rt: &HostRuntime) -> anyhow::Result<()> {
    let mut one = vec![in rt.alloc(); 0u8; 1280]?;
    let mut two = vec![in rt.alloc(); 0u8; 1792]?;
    let mut stripe = Stripe::new(Image::new(&mut one), Image::new(&mut two));
    for unit in [1u32, 2, 5, 64, 65, 0] {
        let answer = told(stripe.set_unit(unit));
        let blocks = stripe.blocks();
        println!(rt; "unit {unit}: answer {answer}, blocks {blocks}")?;
    }
    Ok(())
}

// Listing in rising order, to the sixteenth and one more.
pub fn defects(rt: &HostRuntime) -> anyhow::Result<()> {
    let mut bytes = vec![in rt.alloc(); 0u8; 5120]?;
    let mut list = DefectList::new(rt.alloc(), Image::new(&mut bytes));
    let first = told(list.list(0));
    let equal = told(list.list(0));
    println!(rt; "first defect {first}, the same again {equal}")?;
    for n in 1u32..15 {
        match list.list(n) {
            // Want of memory has no number: what follows shows that the number isn't listed.
            Ok(()) | Err(DefectFault::Memory) => {}
            Err(fault) => println!(rt; "defect {n} answered {}", fault.number())?,
        }
    }
    let smaller = told(list.list(3));
    let sixteenth = told(list.list(18));
    let equal_full = told(list.list(18));
    let seventeenth = told(list.list(19));
    println!(rt;
        "smaller {smaller}, sixteenth {sixteenth}, the same at a full list {equal_full}, seventeenth {seventeenth}"
    )?;
    let block = [5u8; 256];
    let defective = told(list.write(18, &block));
    let sound = told(list.write(19, &block));
    let past = told(list.write(20, &block));
    let short = told(list.write(18, &block[0..200]));
    println!(rt;
        "write on a defect {defective}, beside it {sound}, past the end {past}, short {short}"
    )?;
    Ok(())
}
