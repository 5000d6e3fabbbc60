//! The time limits of a connection.

ghost use Rattle.std.specs.Prelude.{◌≡◌};
ghost use Rattle.std.specs.Duration.{as_nanos};

use std::time::Duration;

/// The longest wait of one read or one write, in seconds.
pub const STEP_SECONDS: u64 = 10;

/// The longest duration of a connection after it was accepted, in seconds.
pub const CONNECTION_SECONDS: u64 = 60;

/// How long a server waits for a peer.
#[derive(Clone, Copy)]
pub(crate) struct Patience {
    /// In one read or one write.
    pub(crate) step: Duration,
    /// In total, from when the connection was accepted.
    pub(crate) whole: Duration,
}

impl Patience {
    /// The time limits of a server.
    pub(crate) fn usual() -> Patience
        ensures step { as_nanos result.step ≡ 10_000_000_000 }
        ensures whole { as_nanos result.whole ≡ 60_000_000_000 }
    {
        Patience {
            step: Duration::from_secs(STEP_SECONDS),
            whole: Duration::from_secs(CONNECTION_SECONDS),
        }
    }
}
