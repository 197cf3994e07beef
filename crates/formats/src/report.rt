// What a report tells, and why one is not written.

// A level's capacity, and how many touches it served.
#[derive(Clone, Copy, PartialEq, Eq, Debug)]
pub struct LevelTally {
    pub capacity: u32,
    pub hits: u32,
}

// A line for each level, the touches that the floor served and the refused lines.
#[derive(Clone, Copy, Debug)]
pub struct Report<'a> {
    pub levels: &'a [LevelTally],
    pub floor: u64,
    pub refused: u64,
}

// Why a report was not written.
#[derive(Clone, Copy, PartialEq, Eq, Debug)]
pub enum ReportFault {
    // The buffer is shorter than the report.
    Short,
}

mod cursor;
mod fault;
mod writing;
