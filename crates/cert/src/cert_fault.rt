//! Faults of unsigned certificates (bodies).

use text::NoMemory;

/// Why bytes aren't a body, in the order of the tests: the first field that fails.
#[derive(Clone, Copy, Debug, PartialEq, Eq)]
pub enum CertFault {
    /// The bytes end inside an integer or a string of the body itself.
    Truncated,
    /// The type isn't `ssh-ed25519-cert-v01@openssh.com`.
    WrongType,
    /// The nonce doesn't have 32 bytes.
    BadNonce,
    /// The key doesn't have 32 bytes.
    BadKey,
    /// The serial is 0 or above 9223372036854775806.
    BadSerial,
    /// The kind is neither 1, a user, nor 2, a host.
    BadKind,
    /// The key id isn't a department's name, `/`, and 1 to 64 printable bytes.
    BadKeyId,
    /// The principals aren't 1 to 16 distinct valid names.
    BadPrincipals,
    /// An end is above 253402300799, or the validity doesn't begin before it ends.
    BadValidity,
    /// The critical options aren't valid for the kind, or their names don't ascend strictly.
    BadOptions,
    /// The extensions aren't valid for the kind, or their names don't ascend strictly.
    BadExtensions,
    /// The reserved field isn't empty.
    BadReserved,
    /// The CA's key isn't the blob of an Ed25519 key.
    BadCa,
    /// Bytes follow the last field.
    TrailingBytes,
    /// An allocation was refused.
    NoMemory,
}

impl From<NoMemory> for CertFault {
    ghost use Rattle.std.specs.Prelude.{◌≡◌};
    ghost use Rattle.cert.specs.declared.cert_fault.CertFault.TheVariants.{NoMemory};

    ghost from_gives = { λ _ e. e ≡ NoMemory };

    fn from(_e: NoMemory) -> CertFault {
        CertFault::NoMemory
    }
}
