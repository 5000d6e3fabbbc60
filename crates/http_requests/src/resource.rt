//! The resources of a GET.

/// The resource of a GET. Serials are from 1 to `LAST_SERIAL`.
#[derive(Clone, Copy)]
pub enum Resource {
    /// The certificates that are neither signed nor revoked.
    Pending,
    /// The line of the certificate with this serial.
    Certificate(u64),
    /// The unsigned certificate (body) with this serial: the bytes that are signed.
    Body(u64),
    /// The key revocation list.
    RevocationList,
    /// The allowed signers.
    Signers,
    /// The report of all certificates.
    Table,
    /// The keys of the certificate authorities.
    Cas,
    /// The texts of all departments.
    Departments,
}
