// What came of a restore, in words.
ghost use Rattle.restoring.specs.Records.{record_text};

use refusal::Refusal;
use std::fmt;

// How many blocks were restored, or by which number nothing was.
#[derive(Clone, Copy)]
pub struct Record<R>(pub Result<u32, R>);

impl<R: Refusal + Copy> fmt::Display for Record<R> {
    ghost output = { λ r. record_text R.number_of r.0 };

    fn fmt<W: fmt::Write>(&self, f: &mut fmt::Formatter<W>) -> fmt::Result {
        match self.0 {
            Ok(blocks) => write!(f, "restored {blocks}"),
            Err(refusal) => write!(f, "refused {}", refusal.number()),
        }
    }
}
