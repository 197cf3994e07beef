// Refusals that are told by number.
#![tactic(auto)]

ghost use Rattle.std.specs.Prelude.{◌≡◌, ℕ};
ghost use Rattle.refusal.specs.Told.{told_by};

// Why a call was refused, one of several reasons, each with a number of its own.
pub trait Refusal {
    // the number of a reason
    ghost number_of: { Self → ℕ };

    // The number by which the refusal is told; 0 for want of memory.
    fn number(self) -> u8
        ensures { result ≡ number_of self };
}

// The number of a refusal, or 0 where there was none.
pub fn told<R: Refusal>(answer: Result<(), R>) -> u8
    ensures { result ≡ told_by R.number_of answer }
{
    match answer {
        Ok(()) => 0,
        Err(refusal) => refusal.number(),
    }
}
