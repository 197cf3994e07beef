// Restoring at its edges.
use device::{Archive, Device, Image};
use layers::{DefectList, RestoreFault, restore};
use restoring::{Record, Striping, restore_image, restore_images};

fn print_outcome(
    rt: &HostRuntime,
    name: &str,
    outcome: Result<u32, RestoreFault>,
) -> anyhow::Result<()> {
    Ok(println!(rt; "{name}: {}", Record(outcome))?)
}

// How many bytes have the value.
fn count_of(bytes: &[u8], value: u8) -> usize {
    bytes.iter().filter(|b| **b == value).count()
}

pub fn onto_image(rt: &HostRuntime) -> anyhow::Result<()> {
    let archive = vec![in rt.alloc(); 3u8; 600]?;
    for length in [0usize, 511, 512, 1000] {
        let mut image = vec![in rt.alloc(); 0u8; length]?;
        let outcome = restore_image(&archive, &mut image);
        let bytes = count_of(&image, 3);
        println!(rt; "image of {length} bytes: {bytes} bytes restored")?;
        print_outcome(rt, "archive of 600 bytes", outcome)?;
    }
    let mut image = vec![in rt.alloc(); 0u8; 300]?;
    print_outcome(
        rt,
        "empty archive",
        restore_image(&archive[0..0], &mut image),
    )
}

fn from_archive<D: Device>(rt: &HostRuntime, archive: &[u8], device: &mut D) -> anyhow::Result<()> {
    print_outcome(rt, "two blocks", restore(&Archive::new(archive), device))
}

// Restores an archive onto an image of which one block is defective.
fn beside_defect(
    rt: &HostRuntime,
    archive: &[u8],
    image: &mut [u8],
    defect: u32,
) -> anyhow::Result<()> {
    let mut list = DefectList::new(rt.alloc(), Image::new(image));
    let listed = list.list(defect).is_ok();
    println!(rt; "defect {defect} listed: {listed}")?;
    from_archive(rt, archive, &mut list)
}

// Restores two blocks onto four of which one is defective, and prints how many bytes were left.
fn with_defect(rt: &HostRuntime, archive: &[u8], defect: u32) -> anyhow::Result<()> {
    let mut image = vec![in rt.alloc(); 0u8; 1024]?;
    beside_defect(rt, archive, &mut image, defect)?;
    let left = count_of(&image, 0);
    println!(rt; "bytes left at 0: {left}")?;
    Ok(())
}

pub fn onto_defect(rt: &HostRuntime) -> anyhow::Result<()> {
    let archive = vec![in rt.alloc(); 3u8; 512]?;
    with_defect(rt, &archive, 2)?;
    with_defect(rt, &archive, 1)
}

pub fn onto_stripe(rt: &HostRuntime) -> anyhow::Result<()> {
    let mut archive = vec![in rt.alloc(); 0u8; 1024]?;
    archive[256..512].fill(1);
    archive[512..768].fill(2);
    archive[768..1024].fill(3);
    for (unit, defect) in [(1u32, 9u32), (2, 9), (2, 3), (65, 9)] {
        let mut first = vec![in rt.alloc(); 9u8; 768]?;
        let mut second = vec![in rt.alloc(); 9u8; 1024]?;
        let outcome = restore_images(
            rt.alloc(),
            &archive,
            &mut first,
            &mut second,
            Striping {
                unit,
                defects: &[defect],
            },
        );
        let (a, b, c, d) = (first[0], first[256], second[0], second[256]);
        println!(rt;
            "stripe of unit {unit}, defect {defect}: {}, blocks {a} {b} and {c} {d}",
            Record(outcome)
        )?;
    }
    Ok(())
}
