//! Verdicts on lists.

use crate::refusal::Refusal;

/// Whether a list is approved, and if so, its version.
#[derive(Clone, Copy, Debug, PartialEq, Eq)]
pub enum Verdict {
    /// It is approved, once the guard keeps it.
    Approve(u64),
    /// It is approved: it is the list that was approved last.
    Again(u64),
    /// It isn't approved, for this refusal: the one with the lowest number that applies.
    Refuse(Refusal),
}
