// A trace judged: its header, and then all its lines.
ghost use Rattle.std.specs.Prelude.{◌≡◌, ℕ, List};
ghost use Rattle.formats.specs.Traces.{lines, judged_after as judged, judged as judged_trace};
ghost use Rattle.formats.specs.TraceLaws.{JudgedRightly as rightly, TakenRightly, ExamplesHold};
ghost use Rattle.formats.specs.Shown.{shown_rest as left};

use crate::trace::TraceFault;
use crate::trace::lines::Lines;

// Judges the lines after the header.
fn judge_lines(body: &[u8]) -> Result<(), TraceFault>
    ensures { result ≡ judged 1 (lines body.now) }
{
    let mut lines = Lines::new(body);
    let mut lawful = 0;
    // A loop, since `by_ref().count()` does not tell what it leaves.
    while lines.next().is_some() {
        lawful += 1;
    }
    if lines.rest.is_empty() {
        Ok(())
    } else {
        Err(TraceFault::Broken(lawful + 2))
    }
}

// Judges the header and the lines after it.
fn judge_all(trace: &[u8]) -> Result<&[u8], TraceFault>
    ensures { left result ≡ judged_trace trace.now }
{
    let body = trace
        .strip_prefix(b"demote-trace 1\n")
        .ok_or(TraceFault::Broken(1))?;
    judge_lines(body)?;
    Ok(body)
}

// Judges a whole trace, and gives the lines after its header.
pub fn judge(trace: &[u8]) -> Result<&[u8], TraceFault>
    ensures answer { left result ≡ judged_trace trace.now }
    ensures first { rightly trace.now }
    ensures taken { (rest : List ℕ) → TakenRightly rest }
{
    judge_all(trace)
}

// The examples of lawful and unlawful lines are what they are said to be.
pub fn examples_hold()
    ensures { ExamplesHold }
{}
