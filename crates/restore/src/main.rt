// Restores archive.bin onto image.bin in the current folder and prints a record of it.
#![tactic(auto)]

use device::{Archive, Image, Source};
use files::{IMAGE, read_all, write_over};
use restoring::{Record, restore_image};

const ARCHIVE: &str = "archive.bin";

fn run(rt: &HostRuntime) -> anyhow::Result<()> {
    let archive = read_all(rt, ARCHIVE)?;
    let mut image = read_all(rt, IMAGE)?;
    println!(rt; "source blocks {}", Archive::new(&archive).blocks())?;
    println!(rt; "device blocks {}", Image::new(&mut image).blocks())?;
    let outcome = restore_image(&archive, &mut image);
    if let Ok(1..) = outcome {
        write_over(rt, IMAGE, &image)?;
    }
    println!(rt; "{}", Record(outcome))?;
    Ok(())
}

fn main(rt: HostRuntime) -> anyhow::Result<()> {
    run(&rt)
}
