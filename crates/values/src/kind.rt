//! The kinds of certificates.

/// The kind of a certificate's subject (PROTOCOL.certkeys, "type"). A department keeps its kind permanently.
#[derive(Clone, Copy, PartialEq, Eq)]
pub enum Kind {
    /// A user: SSH_CERT_TYPE_USER, which is 1.
    User,
    /// A host: SSH_CERT_TYPE_HOST, which is 2.
    Host,
}
