// A line for each sheet: its lists, or the refusal and the offset.
use formats::{Sheet, SheetFault, read_sheet};
use std::io;

const SHEETS: &[(&str, &[u8])] = &[
    ("empty sheet", b""),
    ("cut header with a wrong byte", b"PX"),
    ("header alone", b"PILE"),
    ("wrong header", b"PILF\x00\x01\x01\x00"),
    ("small letters", b"pile"),
    ("least sheet", b"PILE\x00\x01\x01\x00"),
    ("four levels", b"PILE\x04\x01\x10\x02\x03\x01\x01\x00"),
    ("five levels", b"PILE\x05\x01\x01\x01\x01\x01\x01\x01\x00"),
    ("capacity 0", b"PILE\x02\x01\x00\x01\x01\x00"),
    ("capacity 17", b"PILE\x01\x11\x01\x01\x00"),
    ("missing capacity", b"PILE\x02\x01"),
    ("capacity 0 before the cut", b"PILE\x03\x00"),
    ("missing image count", b"PILE\x00"),
    ("no image", b"PILE\x00\x00\x00"),
    ("three images", b"PILE\x00\x03\x01\x01\x01\x00"),
    ("single image of unit 2", b"PILE\x00\x01\x02\x00"),
    ("two of unit 64", b"PILE\x00\x02\x40\x40\x00"),
    ("two of unit 65", b"PILE\x00\x02\x41\x41\x00"),
    ("two of unit 0", b"PILE\x00\x02\x00\x00\x00"),
    ("units that differ", b"PILE\x00\x02\x03\x04\x00"),
    ("missing second unit", b"PILE\x00\x02\x03"),
    ("missing defect count", b"PILE\x00\x01\x01"),
    (
        "three defects",
        b"PILE\x00\x01\x01\x03\x00\x00\x00\x05\x01\x00",
    ),
    ("greatest defect", b"PILE\x00\x01\x01\x01\xff\xff"),
    ("a defect twice", b"PILE\x00\x01\x01\x02\x00\x05\x00\x05"),
    ("falling defects", b"PILE\x00\x01\x01\x02\x01\x00\x00\xff"),
    ("half a defect", b"PILE\x00\x01\x01\x01\x00"),
    ("half a falling defect", b"PILE\x00\x01\x01\x02\x00\x05\x00"),
    ("seventeen defects", b"PILE\x00\x01\x01\x11"),
    (
        "sixteen defects",
        b"PILE\x00\x01\x01\x10\x00\x01\x00\x02\x00\x03\x00\x04\x00\x05\x00\x06\x00\x07\x00\x08\x00\x09\x00\x0a\x00\x0b\x00\x0c\x00\x0d\x00\x0e\x00\x0f\x00\x10",
    ),
    ("extra byte", b"PILE\x00\x01\x01\x00\x00"),
];

fn show(rt: &HostRuntime, name: &str, bytes: &[u8]) -> io::Result<()> {
    match read_sheet(rt.alloc(), bytes) {
        Ok(
            Sheet {
                levels,
                images,
                defects,
            },
        ) => { println!(rt; "{name}: levels {levels:?} images {images:?} defects {defects:?}") }
        // Want of memory has no number and no offset.
        Err(SheetFault::Memory) => println!(rt; "{name}: 0 at 0"),
        Err(fault) => println!(rt; "{name}: {fault}"),
    }
}

pub fn show_all(rt: &HostRuntime) -> io::Result<()> {
    for (name, sheet) in SHEETS {
        show(rt, name, sheet)?;
    }
    Ok(())
}
