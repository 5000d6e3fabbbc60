//! Public keys, certificates and allowed signers as lines of text, and digests.
//!
//! A text is read as a public-key line exactly when it is the line of a key and a valid comment or none; for any other
//! text the first fault is reported. A valid public-key line is written as its text, which is read back as the same
//! value. Digests and fingerprints are texts of SHA-256 as FIPS 180-4 defines it, and need no allocation.
#![tactic(auto)]

mod blob;
mod cert_line;
mod digest;
mod key_line;
mod key_line_reader;
mod laws;
mod signature;
mod signers;
mod subject;
mod subject_line;
mod writing;

pub use blob::{key_blob_of, read_key_blob, read_signature_blob, signature_blob_of};
pub use cert_line::write_cert_line;
pub use digest::{body_digest, fingerprint};
pub use key_line::{KeyLine, LineFault};
pub use key_line_reader::{MAX_COMMENT, is_comment, read_key_line, word_and_rest};
pub use laws::{
    base64_words_are_blobs, key_lines_are_lawful_or_faulty, key_lines_are_read_again,
    subject_lines_are_read_again,
};
pub use signature::Signature;
pub use signers::{OutFault, SignerRow, write_signers};
pub use subject::{
    KeyType, are_parts, cert_name, is_key_type, key_name, read_strings_of, type_named, type_of,
};
pub use subject_line::{SubjectLine, put_subject_line, read_subject_line};
pub use writing::{bare_key_line, put_key_line, write_key_line};
