// How the refusal of a report is told.
ghost use Rattle.std.specs.Prelude.{◌≡◌};
ghost use Rattle.formats.specs.Reports.{number_of as numbered};

use crate::report::ReportFault;
use refusal::Refusal;

impl Refusal for ReportFault {
    ghost number_of = { numbered };

    fn number(self) -> u8 {
        match self {
            ReportFault::Short => 17,
        }
    }
}
