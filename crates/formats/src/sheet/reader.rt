// Reading a sheet from the left, item by item.
ghost use Rattle.std.specs.Prelude.{◌≡◌, ◌≤◌, length, IfOk};

use crate::sheet::SheetFault;

// A sheet of `total` bytes, and the bytes of it that are left.
#[derive(Drop)]
pub struct Reader<'a> {
    pub total: usize,
    pub rest: &'a [u8],
    ghost within: { length rest.now ≤ total },
}

impl<'a> Reader<'a> {
    ghost use Rattle.formats.specs.Sheets.{byte_within as within, number_from as from, after_header as headed};
    ghost use Rattle.formats.specs.Seen.{read, left};

    // A sheet after the four bytes that it begins with.
    pub fn after_header(sheet: &'a [u8]) -> Result<Reader<'a>, SheetFault>
        ensures rest { left result ≡ headed sheet.now }
        ensures total { IfOk result (λ reader. reader.total ≡ length sheet.now) }
    {
        if sheet.len() < 4 {
            return Err(SheetFault::Cut(sheet.len()));
        }
        let rest = sheet.strip_prefix(b"PILE").ok_or(SheetFault::Broken(0))?;
        Ok(Reader {
            total: sheet.len(),
            rest,
        })
    }

    // One byte from `low` to `high`.
    pub fn byte_within(&mut self, low: u8, high: u8) -> Result<u8, SheetFault>
        ensures read { read result self.new ≡ within self.old.total low high self.old.rest.now }
        ensures total { self.new.total ≡ self.old.total }
    {
        let [byte, rest @ ..] = self.rest else {
            return Err(SheetFault::Cut(self.total));
        };
        if !(low..=high).contains(byte) {
            return Err(SheetFault::Broken(self.offset()));
        }
        self.rest = rest;
        Ok(*byte)
    }

    // One number of two bytes, high byte first, not below `least`. It shares with a byte only the cut and the offset: a byte is
    // bounded on both sides, and a function for both lengths would have to narrow what it read.
    pub fn number_from(&mut self, least: u32) -> Result<u16, SheetFault>
        ensures read { read result self.new ≡ from self.old.total least self.old.rest.now }
        ensures total { self.new.total ≡ self.old.total }
    {
        let [high, low, rest @ ..] = self.rest else {
            return Err(SheetFault::Cut(self.total));
        };
        let number = u16::from_be_bytes([*high, *low]);
        if u32::from(number) < least {
            return Err(SheetFault::Broken(self.offset()));
        }
        self.rest = rest;
        Ok(number)
    }
}

impl Reader<'_> {
    ghost use Rattle.std.specs.Prelude.{◌-◌};

    // Where the bytes that are left begin.
    pub fn offset(&self) -> usize
        ensures { result ≡ self.now.total - length self.now.rest.now }
    {
        self.total - self.rest.len()
    }
}
