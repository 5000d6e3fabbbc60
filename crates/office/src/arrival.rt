//! Received requests, and their outcomes.

use text::Text;
use values::Refusal;

/// The most bytes in a reply.
pub const MAX_REPLY: usize = 99;

/// A received request: a message with its caller, its request key, its time and its nonce.
///
/// Caller and key are names (1 to 32 bytes of `a-z 0-9 -`: see `is_name`); its creator ensures this.
#[derive(Drop)]
pub struct Arrival {
    pub caller: Text,
    /// The request key: together with the caller it identifies a request permanently.
    pub key: Text,
    /// The message.
    pub bytes: Text,
    /// Seconds since 1970-01-01 00:00:00 UTC. Times are unconstrained: they may go backwards.
    pub moment: u64,
    /// Random bytes for an unsigned certificate. Nonces are unconstrained: they may repeat.
    pub nonce: [u8; 32],
}

/// The answer to an arrival.
#[derive(Drop)]
pub enum Outcome {
    /// It was accepted now, with this reply.
    Accepted(Text),
    /// It was accepted before, and this is the reply that it got then.
    Repeated(Text),
    /// It was refused, which changes nothing and isn't remembered.
    Refused(Refusal),
}

/// The stored row of an arrival that was accepted.
#[derive(Drop)]
pub struct Kept {
    pub caller: Text,
    pub key: Text,
    pub bytes: Text,
    pub reply: Text,
}
