//! Why a message could not be read.

ghost use Rattle.std.specs.Prelude.{◌≡◌};
ghost use Rattle.message.specs.declared.message_fault.MessageFault.TheVariants.{NoMemory};

/// Why a message could not be read.
#[derive(Clone, Copy, Debug, PartialEq, Eq)]
pub enum MessageFault {
    /// The first line, counted from 1, that no message has in that place after the lines before it.
    BadLine(u64),
    /// An allocation was refused.
    NoMemory,
}

impl From<text::NoMemory> for MessageFault {
    ghost from_gives = { λ _ e. e ≡ NoMemory };

    fn from(_e: text::NoMemory) -> MessageFault {
        MessageFault::NoMemory
    }
}
