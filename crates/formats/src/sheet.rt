// What a sheet lists, and why one is refused.
ghost use Rattle.std.specs.Vec.{vec_items as items};
ghost use Rattle.formats.specs.SheetLaws.{Lawful, lawful_once};

// The images of a sheet. No `Option` of a unit, of which `None` would not say that there is one image.
#[derive(Clone, Copy, PartialEq, Eq, Debug)]
pub enum Images {
    Single,
    // Two images, by runs of so many blocks.
    Striped(u8),
}

// What a sheet lists: no more than it may list.
#[derive(Drop)]
pub struct Sheet {
    // The capacity of each level, top first.
    pub levels: Vec<u8>,
    pub images: Images,
    // The numbers of the defective blocks, rising.
    pub defects: Vec<u16>,
    pub ghost lawful: { Lawful (record { levels = items levels; images = images; defects = items defects }) } by { lawful_once (record { levels = items levels; images = images; defects = items defects }) },
}

// Why a sheet was refused, with the offset of the first fault.
#[derive(Clone, Copy, PartialEq, Eq, Debug)]
pub enum SheetFault {
    // An item is cut short or missing.
    Cut(usize),
    // The header, a count or an entry breaks a rule.
    Broken(usize),
    // Bytes follow the last section.
    Extra(usize),
    // There is no memory for the lists.
    Memory,
}

mod fault;
mod reader;
mod reading;

pub use reading::read_sheet;
