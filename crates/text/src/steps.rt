//! Two independent steps that may fail.
//!
//! The second is evaluated even if the first fails. So a function that combines many steps has one exit, and no value
//! that it would have to drop there: the proof would take such a value apart field by field, once for each step.

ghost use Rattle.std.specs.Prelude.{◌≡◌, IfOk, Ok};
ghost use Rattle.text.specs.Results.{both};

/// The values of both steps.
///
/// # Errors
///
/// The fault of the first that failed.
pub fn both<A: Drop, B: Drop, F: Drop>(one: Result<A, F>, other: Result<B, F>) -> Result<(A, B), F>
    ensures is { result ≡ both one other }
    ensures one { IfOk result (λ given. one ≡ Ok given.0) }
    ensures other { IfOk result (λ given. other ≡ Ok given.1) }
{
    Ok((one?, other?))
}
