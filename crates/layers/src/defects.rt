// A list of defective blocks over any device.
ghost use Rattle.std.specs.Prelude.{◌≡◌, []};
ghost use Rattle.std.specs.Vec.{vec_items as items};
ghost use Rattle.device.specs.Loans.{Loans};
ghost use Rattle.layers.specs.declared.defects.DefectFault.TheVariants.{Memory};
ghost use Rattle.layers.specs.Defects.{masked, listed, rises, listing, had_room as roomy, with_listed as relisted, number_of as numbered};
ghost use Rattle.layers.specs.Masked.{masked_lawful as lawfully};

use device::{Device, DeviceFault, Source, admit};
use refusal::Refusal;
use std::alloc::{AllocFailed, Global};

// The most numbers that a list takes.
const MOST: usize = 16;

// Why a number was not listed.
#[derive(Clone, Copy, PartialEq, Eq, Debug)]
pub enum DefectFault {
    // It is not greater than the last one.
    NotGreater,
    // The list is full.
    Full,
    // There is no memory for it.
    Memory,
}

impl Refusal for DefectFault {
    ghost number_of = { numbered };

    fn number(self) -> u8 {
        match self {
            DefectFault::NotGreater => 10,
            DefectFault::Full => 11,
            DefectFault::Memory => 0,
        }
    }
}

impl<T: Drop> From<AllocFailed<T>> for DefectFault {
    ghost from_gives = { λ _ r. r ≡ Memory };

    fn from(_refused: AllocFailed<T>) -> DefectFault {
        DefectFault::Memory
    }
}

// A device of which the listed blocks are defective, and those that are defective below.
#[derive(Drop)]
pub struct DefectList<D> {
    below: D,
    numbers: Vec<u32>,
}

// Whether `n` is greater than the last number, if there is one.
fn rises_above(numbers: &[u32], n: u32) -> bool
    ensures { result ≡ rises numbers.now n }
{
    numbers.last().is_none_or(|last| *last < n)
}

impl<D> DefectList<D> {
    // An empty list over a device.
    pub fn new(heap: Global, below: D) -> DefectList<D>
        ensures below { result.below ≡ below }
        ensures numbers { items result.numbers ≡ [] }
    {
        DefectList {
            below,
            numbers: Vec::new(heap),
        }
    }

    // Lists one more defective number, greater than all before it.
    pub fn list(&mut self, n: u32) -> Result<(), DefectFault>
        ensures answer { result ≡ listing (roomy result) (items self.old.numbers) n }
        ensures numbers { items self.new.numbers ≡ relisted result (items self.old.numbers) n }
        ensures below { self.new.below ≡ self.old.below }
    {
        if !rises_above(&self.numbers, n) {
            return Err(DefectFault::NotGreater);
        }
        if self.numbers.len() >= MOST {
            return Err(DefectFault::Full);
        }
        self.numbers.push(n)?;
        Ok(())
    }

    // Ends the list and gives its device back.
    pub fn into_below(self) -> D
        ensures { result ≡ self.below }
    {
        let DefectList { below, numbers } = self;
        drop(numbers);
        below
    }

    // Whether `b` is on the list.
    pub fn is_listed(&self, b: u32) -> bool
        ensures { result ≡ listed (items self.now.numbers) b }
    {
        self.numbers.contains(&b)
    }
}

impl<D: Source> Source for DefectList<D> {
    ghost store = { λ x. masked (items x.numbers) (D.Source.store x.below) };

    ghost lawful = { λ x. lawfully (items x.numbers) (D.Source.store x.below) (D.Source.lawful x.below) };

    fn blocks(&self) -> u32 {
        self.below.blocks()
    }

    fn is_sound(&self, b: u32) -> bool {
        self.below.is_sound(b) && !self.is_listed(b)
    }

    fn read(&self, b: u32, buffer: &mut [u8]) -> Result<(), DeviceFault> {
        admit(buffer.len(), b, self.blocks(), self.is_sound(b))?;
        self.below.read(b, buffer)
    }
}

impl<D: Device> Device for DefectList<D> {
    ghost loans = { λ x. Loans.listed (items x.numbers) (D.Device.loans x.below) };

    fn write(&mut self, b: u32, bytes: &[u8]) -> Result<(), DeviceFault> {
        admit(bytes.len(), b, self.blocks(), self.is_sound(b))?;
        self.below.write(b, bytes)
    }
}
