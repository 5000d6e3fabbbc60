//! Why the words ask for no job.

use std::alloc::AllocError;

/// Why the words ask for no job. The texts are clap's, and end with a line feed.
#[derive(Debug, Drop)]
pub enum WordsFault {
    /// They ask for the help or the version, which is this text.
    Help(String),
    /// They are invalid, for the reason in this text.
    BadWords(String),
    /// Memory was refused.
    NoMemory,
}

impl From<AllocError> for WordsFault {
    ghost use Rattle.std.specs.Prelude.{◌≡◌};
    ghost use Rattle.command_line.specs.declared.words_fault.WordsFault.TheVariants.{NoMemory};

    ghost from_gives = { λ _ e. e ≡ NoMemory };

    fn from(_e: AllocError) -> WordsFault {
        WordsFault::NoMemory
    }
}
