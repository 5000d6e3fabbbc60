//! Readers, writers and nonce sources in memory, with a pace, a length and failures that a test chooses.

ghost use Rattle.std.specs.Prelude.{◌≡◌};

mod nonces;
mod reader;
mod writer;

pub use nonces::ScriptedNonces;
pub use reader::ScriptedReader;
pub use writer::ScriptedWriter;

/// The number of bytes that a call gives or takes.
#[derive(Clone, Copy, PartialEq, Eq)]
pub enum Pace {
    /// As many as there are and fit.
    Whole,
    /// One, if there is one and it fits.
    OneByte,
}

impl Pace {
    ghost use Rattle.wire.specs.Scripts.{paced};

    /// The number of bytes that are given or taken if at most `most` could be.
    fn of(self, most: usize) -> usize
        ensures { result ≡ paced self most }
    {
        match self {
            Pace::Whole => most,
            Pace::OneByte => most.min(1),
        }
    }
}

/// What a reader does if no byte is left.
#[derive(Clone, Copy, PartialEq, Eq)]
pub enum Ending {
    /// It reports the end: it reads no byte.
    Ends,
    /// It fails in each call.
    Fails,
}
