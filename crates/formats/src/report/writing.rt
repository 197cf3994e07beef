// Writing a report into a buffer that is handed in.
ghost use Rattle.std.specs.Prelude.{◌≡◌, ◌-◌, ◌^◌, ◌<◌, length, nat_le};
ghost use Rattle.std.specs.Bool.{then_some};
ghost use Rattle.formats.specs.Reports.{level_lines as all_lines, report, report_answer as answered, report_buffer as filled, Wrote};
ghost use Rattle.formats.specs.ReportLaws.{ReadBack};

use crate::report::cursor::Cursor;
use crate::report::{LevelTally, Report, ReportFault};

// The lines of the levels, counted from 1.
fn put_levels(cursor: &mut Cursor<'_>, levels: &[LevelTally])
    ensures { Wrote (all_lines 1 levels.now) cursor.old cursor.new }
{
    for (i, level) in levels.iter().enumerate() {
        cursor.level(i + 1, level);
    }
}

impl Report<'_> {
    // The line of each level, and then the last two.
    fn put(&self, cursor: &mut Cursor<'_>)
        ensures { Wrote (report self.now.levels.now self.now.floor self.now.refused) cursor.old cursor.new }
    {
        put_levels(cursor, self.levels);
        cursor.line(b"floor ", self.floor);
        cursor.line(b"refused ", self.refused);
    }

    // How long the report is, if it has at most so many bytes. The levels are measured up to the first that is past the room.
    fn length_within(&self, room: usize) -> Option<usize>
        requires { room < 2 ^ 64 - 1 }
        ensures { result ≡ then_some (nat_le (length (report self.now.levels.now self.now.floor self.now.refused)) room) (length (report self.now.levels.now self.now.floor self.now.refused)) }
    {
        let mut cursor = Cursor {
            buffer: &mut [],
            at: 0,
        };
        cursor.line(b"floor ", self.floor);
        cursor.line(b"refused ", self.refused);
        for (i, level) in self.levels.iter().enumerate() {
            if cursor.at > room {
                return None;
            }
            cursor.level(i + 1, level);
        }
        (cursor.at <= room).then_some(cursor.at)
    }

    // Writes the report if the buffer has room for it.
    fn fill(&self, buffer: &mut [u8]) -> Result<usize, ReportFault>
        ensures answer { result ≡ answered (length buffer.old) (report self.now.levels.now self.now.floor self.now.refused) }
        ensures buffer { buffer.new ≡ filled (report self.now.levels.now self.now.floor self.now.refused) buffer.old }
    {
        let length = self.length_within(buffer.len()).ok_or(ReportFault::Short)?;
        self.put(&mut Cursor { buffer, at: 0 });
        Ok(length)
    }

    // Writes the report and tells how long it is. A buffer that is shorter is left as it was.
    pub fn write(&self, buffer: &mut [u8]) -> Result<usize, ReportFault>
        ensures answer { result ≡ answered (length buffer.old) (report self.now.levels.now self.now.floor self.now.refused) }
        ensures buffer { buffer.new ≡ filled (report self.now.levels.now self.now.floor self.now.refused) buffer.old }
        ensures back { ReadBack }
    {
        self.fill(buffer)
    }
}
