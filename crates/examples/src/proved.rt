// The worked examples, as one theorem, and the worked runs as another.
ghost use Rattle.std.specs.Prelude.{◌≡◌, length};
ghost use Rattle.examples.specs.Examples.{examples, ExamplesHold};
ghost use Rattle.examples.specs.Runs.{runs, RunsStand};

fn count() -> usize
    ensures { result ≡ length examples }
{
    9
}

// How many worked examples there are; each is proved of the definitions that the contracts cite.
pub fn worked_examples() -> usize
    ensures count { result ≡ length examples }
    ensures hold { ExamplesHold }
{
    count()
}

// How many worked runs there are; each is proved from the laws, over every lawful device.
pub fn worked_runs() -> usize
    ensures count { result ≡ length runs }
    ensures stand { RunsStand }
{
    3
}
