// The formats that the programs read and write: the sheet, the trace and the report.
#![tactic(auto)]

mod report;
mod sheet;
mod trace;

pub use report::{LevelTally, Report, ReportFault};
pub use sheet::{Images, Sheet, SheetFault, read_sheet};
pub use trace::{Line, Lines, TraceFault, examples_hold, fill_in, first_line, judge, number_in};
