// Values that are there already, across calls that may find no memory.
ghost use Rattle.std.specs.Prelude.{◌≡◌, Ok, Err, MatchResult};

use std::alloc::AllocError;

/// What is there already, and what was made next, if there was memory for it: so a function that makes several things has them in
/// one place where it stops.
pub fn beside<A: Drop, B: Drop>(
    before: A,
    next: Result<B, AllocError>,
) -> Result<(A, B), AllocError>
    ensures { MatchResult result (λ both. (both.0 ≡ before) × (next ≡ Ok both.1)) (λ error. next ≡ Err error) }
{
    match next {
        Ok(next) => Ok((before, next)),
        Err(error) => Err(error),
    }
}
