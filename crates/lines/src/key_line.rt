//! The public-key line: the public half of a key, as one line of text.

ghost use Rattle.std.specs.Prelude.{◌≡◌, IfOk};

use std::alloc::Global;
use text::{NoMemory, Text};

/// An Ed25519 public key, with a comment or none. No comment and an empty comment are different values.
#[derive(Drop)]
pub struct KeyLine {
    /// The 32 bytes of the key.
    pub key: [u8; 32],
    /// Up to 1024 bytes, each a tab, printable ASCII or beyond ASCII.
    pub comment: Option<Text>,
}

impl KeyLine {
    /// A copy, in new memory.
    ///
    /// # Errors
    ///
    /// `NoMemory`, if an allocation was refused.
    pub fn copied(&self, alloc: Global) -> Result<KeyLine, NoMemory>
        ensures { IfOk result (λ k. k ≡ self.now) }
    {
        let comment = match &self.comment {
            Some(comment) => Some(comment.copied(alloc)?),
            None => None,
        };
        Ok(KeyLine {
            key: self.key,
            comment,
        })
    }
}

/// Why a text is no public-key line, in the order in which the faults are checked.
#[derive(Clone, Copy, Debug, PartialEq, Eq)]
pub enum LineFault {
    /// It does not begin with `ssh-ed25519` and a space.
    WrongType,
    /// The word up to the next space or the end is not 68 characters of the standard alphabet.
    BadBase64,
    /// The 51 bytes are not the blob of an Ed25519 key.
    BadBlob,
    /// The comment has a byte that isn't allowed in comments, or more than 1024 bytes.
    BadComment,
    /// An allocation was refused.
    NoMemory,
}

impl From<NoMemory> for LineFault {
    ghost use Rattle.lines.specs.declared.key_line.LineFault.TheVariants.{NoMemory};

    ghost from_gives = { λ _ e. e ≡ NoMemory };

    fn from(_e: NoMemory) -> LineFault {
        LineFault::NoMemory
    }
}
