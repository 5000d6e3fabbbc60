//! What a decision reads, and its result.

use crate::refusal::Refusal;
use crate::scope::Scope;
use text::Text;

/// What a decision reads of a guard, for the unsigned certificate (body) that is judged.
#[derive(Drop)]
pub struct View<'a> {
    pub scope: Scope,
    /// The body that was approved under the judged body's serial, if there is one.
    pub kept: Option<&'a Text>,
}

/// The time at which a body is judged, and how far ahead its validity may begin.
#[derive(Clone, Copy)]
pub struct Window {
    /// Now, in seconds since 1970-01-01 00:00:00 UTC.
    pub moment: u64,
    /// How many seconds after that time a validity may begin.
    pub ahead: u64,
}

/// Whether a body may be signed.
#[derive(Clone, Copy, Debug, PartialEq, Eq)]
pub enum Verdict {
    /// It may, after the guard has kept it.
    Approve,
    /// It may: exactly this body was approved before.
    Again,
    /// It may not, because of the refusal with the lowest number.
    Refuse(Refusal),
}
