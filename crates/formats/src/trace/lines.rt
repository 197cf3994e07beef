// The lines of a trace, taken one by one.
ghost use Rattle.std.specs.Prelude.{◌≡◌};
ghost use Rattle.formats.specs.Traces.{said, read_fields as reading, write_fields as writing, sync_fields as syncing, first_line as first};
ghost use Rattle.formats.specs.Shown.{shown_line as shown, shown_first as taken};

use crate::trace::Line;
use crate::trace::fields::{cut, fill_in, number_in};

// The fields after `R`: one space and a number.
fn read_fields(fields: &[u8]) -> Option<Line<'_>>
    ensures { shown result ≡ reading fields.now }
{
    let [b' ', number @ ..] = fields else {
        return None;
    };
    number_in(number)?;
    Some(Line::Read { number })
}

// The fields after `W`: one space, a number, one space and a byte.
fn write_fields(fields: &[u8]) -> Option<Line<'_>>
    ensures { shown result ≡ writing fields.now }
{
    let [b' ', rest @ ..] = fields else {
        return None;
    };
    let (number, fill) = cut(rest, b' ')?;
    number_in(number)?;
    fill_in(fill)?;
    Some(Line::Write { number, fill })
}

// Nothing stands after `S`.
fn sync_fields(fields: &[u8]) -> Option<Line<'_>>
    ensures { shown result ≡ syncing fields.now }
{
    fields.is_empty().then_some(Line::Sync)
}

// What the text of a line says, if it is lawful.
fn parse(text: &[u8]) -> Option<Line<'_>>
    ensures { shown result ≡ said text.now }
{
    let [letter, fields @ ..] = text else {
        return None;
    };
    match char::from(*letter) {
        'R' => read_fields(fields),
        'W' => write_fields(fields),
        'S' => sync_fields(fields),
        _ => None,
    }
}

// The first line, and the lines after it; none where no lawful line is left.
pub fn first_line(rest: &[u8]) -> Option<(Line<'_>, &[u8])>
    ensures { taken result ≡ first rest.now }
{
    let (text, after) = cut(rest, b'\n')?;
    let line = parse(text)?;
    Some((line, after))
}

// The lawful lines that are left, up to one that is not.
#[derive(Drop)]
pub struct Lines<'a> {
    // The bytes that are left.
    pub rest: &'a [u8],
}

impl<'a> Lines<'a> {
    // The lines of a text.
    pub fn new(rest: &'a [u8]) -> Lines<'a>
        ensures { result.rest.now ≡ rest.now }
    {
        Lines { rest }
    }
}

impl<'a> Iterator for Lines<'a> {
    ghost use Rattle.std.specs.Prelude.{length};
    ghost use Rattle.std.specs.Iterator.{at_most};
    ghost use Rattle.formats.specs.Shown.{TakesLine};

    type Item = Line<'a>;

    ghost next_gives = { TakesLine };

    ghost remaining = { λ lines. at_most (length lines.rest.now) };

    #[tactic(auto, using(crate::proofs::Judged::shorter))]
    fn next(&mut self) -> Option<Line<'a>> {
        let (line, after) = first_line(self.rest)?;
        self.rest = after;
        Some(line)
    }
}
