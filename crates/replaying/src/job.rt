// What a replay runs.
use formats::Sheet;

// A sheet, and the lines that are run on what it lists.
#[derive(Clone, Copy)]
pub struct Job<'a> {
    pub sheet: &'a Sheet,
    pub body: &'a [u8],
}
