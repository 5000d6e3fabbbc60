//! What is remembered between two requests for the pending certificates.

ghost use Rattle.std.specs.Prelude.{◌≡◌, [], IfOk};

use office::Pending;
use std::alloc::Global;
use text::NoMemory;

/// The rows of the certificates before a place that were pending. Some of them may not be any more.
#[derive(Drop)]
pub(crate) struct Known {
    /// The place: the certificates before it have been read.
    pub(crate) seen: u64,
    /// By serial.
    pub(crate) rows: Vec<Pending>,
}

impl Known {
    /// No knowledge yet.
    pub(crate) fn nothing(alloc: Global) -> Known
        ensures seen { result.seen ≡ 0 }
        ensures rows { result.rows.items ≡ [] }
    {
        Known {
            seen: 0,
            rows: Vec::new(alloc),
        }
    }

    /// A copy of the rows.
    pub(crate) fn copied_rows(&self, alloc: Global) -> Result<Vec<Pending>, NoMemory>
        ensures { IfOk result (λ rows. rows.items ≡ self.now.rows.items) }
    {
        let mut rows = Vec::new(alloc);
        rows.extend_from_slice(self.rows.as_slice())?;
        Ok(rows)
    }
}
