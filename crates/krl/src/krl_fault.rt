//! Why a list is refused.

/// The first fault of a list (OpenSSH PROTOCOL.krl) from the left.
#[derive(Clone, Copy, Debug, PartialEq, Eq)]
pub enum KrlFault {
    /// The list ends inside its header, or inside a section's type, length or data.
    Truncated,
    /// It doesn't begin with `SSHKRL` LF NUL.
    BadMagic,
    /// The format's version isn't 1.
    BadVersion,
    /// The flags aren't 0.
    BadFlags,
    /// A section, or a part of a certificates section, has an unsupported type.
    Unsupported(u8),
    /// A section's data is malformed.
    BadSection,
}
