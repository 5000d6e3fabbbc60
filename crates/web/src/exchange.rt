//! Requests for `run`, and their results.

use text::Text;

/// A request, with the time and the nonce to be used for it.
#[derive(Drop)]
pub struct Exchange {
    /// The bytes of an HTTP request.
    pub request: Text,
    /// Seconds since 1970-01-01 00:00:00 UTC.
    pub moment: u64,
    pub nonce: [u8; 32],
}

/// The result of an exchange.
#[derive(Drop)]
pub enum Given {
    /// The bytes of a response.
    Answer(Text),
    /// Nothing: a fault occurred. A register that meant a history still means it.
    Fault,
}
