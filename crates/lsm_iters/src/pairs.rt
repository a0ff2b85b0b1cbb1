//! Pairing a large value with a fallible one.
ghost use Rattle.std.specs.Prelude.{◌≡◌, Ok, Err, MatchResult};

/// Pairs a value with the value of a result, or returns the result's error.
///
/// It is generic, so that a caller's error path does not drop the parts of a large value. Such a
/// drop is expensive to prove.
pub fn beside<T: Drop, U, E>(first: T, second: Result<U, E>) -> Result<(T, U), E>
    ensures both { MatchResult second (λ y. result ≡ Ok (first, y)) (λ e. result ≡ Err e) }
{
    Ok((first, second?))
}
