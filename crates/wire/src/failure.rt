//! Failed reads and writes.

/// A call of a reader or a writer failed. The reader or writer counts it.
#[derive(Clone, Copy, Debug, PartialEq, Eq)]
pub struct Failed;
