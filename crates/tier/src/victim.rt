// A block in hand: one that left a level and is owed to the tier below.
ghost use Rattle.std.specs.Prelude.{◌≡◌};

use row::Mark;

// The number and mark of a block in hand, whose bytes lie in a buffer beside it and are not moved with it. It cannot be forgotten or used twice:
// it is spent by handing it to `demote`.
pub struct Victim {
    number: u32,
    mark: Mark,
}

impl Victim {
    // A block taken in hand.
    pub fn new(number: u32, mark: Mark) -> Victim
        ensures number { result.number ≡ number }
        ensures mark { result.mark ≡ mark }
    {
        Victim { number, mark }
    }

    // Spends the token: what is done with its block is now up to the tier that took it.
    pub fn open(self) -> (u32, Mark)
        ensures { result ≡ (self.number, self.mark) }
    {
        let Victim { number, mark } = self;
        (number, mark)
    }
}
