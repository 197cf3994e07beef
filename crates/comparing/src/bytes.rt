// Comparing the layouts of two sheets, from bytes.
ghost use Rattle.std.specs.Prelude.{◌≡◌, Ok};
ghost use Rattle.comparing.specs.Sheets.{shown, memory_or, listed_answer, sheets_answer, ListedProved, SheetsProved};
ghost use Rattle.comparing.specs.Refusals.{refused};
ghost use Rattle.formats.specs.Seen.{listed};
ghost use Rattle.formats.specs.Sheets.{sheet_of};

use crate::fault::LayoutFault;
use crate::sheets::compare_images;
use crate::side::{ImagePair, Side};
use certificate::Comparison;
use formats::{Sheet, SheetFault, read_sheet};
use std::alloc::Global;

// Which sheet of the two is refused.
#[derive(Clone, Copy)]
enum Which {
    First,
    Second,
}

// The refusal of a sheet; want of memory is told as such.
fn refuse(which: Which, fault: SheetFault) -> LayoutFault
    ensures { result ≡ refused which fault }
{
    match (which, fault) {
        (_, SheetFault::Memory) => LayoutFault::Memory,
        (Which::First, _) => LayoutFault::First(fault),
        (Which::Second, _) => LayoutFault::Second(fault),
    }
}

// Reads the second sheet and compares.
fn compare_with(
    heap: Global,
    first: Side<&Sheet>,
    second: Side<&[u8]>,
    images: ImagePair,
) -> Result<Comparison, LayoutFault>
    ensures answer { shown result ≡ memory_or result (listed_answer (Ok (listed first.entry.sheet.now)) first.entry.levels (sheet_of second.entry.sheet.now) second.entry.levels images.entry.first.now images.entry.second.now) }
    ensures proved { ListedProved (Ok (listed first.entry.sheet.now)) first.entry.levels (sheet_of second.entry.sheet.now) second.entry.levels images.entry.first.now images.entry.second.now result }
{
    let sheet = read_sheet(heap, second.sheet).map_err(|fault| refuse(Which::Second, fault))?;
    let second = Side {
        sheet: &sheet,
        levels: second.levels,
    };
    compare_images(heap, first, second, images)
}

// Compares the first levels of one sheet with the first of another, over the same images, which stay as they are. The first
// sheet is read first. The contract carries what `compare` proves.
pub fn compare_sheets(
    heap: Global,
    first: Side<&[u8]>,
    second: Side<&[u8]>,
    images: ImagePair,
) -> Result<Comparison, LayoutFault>
    ensures answer { shown result ≡ memory_or result (sheets_answer first.entry.sheet.now first.entry.levels second.entry.sheet.now second.entry.levels images.entry.first.now images.entry.second.now) }
    ensures proved { SheetsProved first.entry.sheet.now first.entry.levels second.entry.sheet.now second.entry.levels images.entry.first.now images.entry.second.now result }
{
    let sheet = read_sheet(heap, first.sheet).map_err(|fault| refuse(Which::First, fault))?;
    let first = Side {
        sheet: &sheet,
        levels: first.levels,
    };
    compare_with(heap, first, second, images)
}
