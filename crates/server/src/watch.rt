//! The time that is left to a connection.

ghost use Rattle.std.specs.Prelude.{◌≡◌, ◌-◌, ◌<◌, ℕ, min, MatchOption};
ghost use Rattle.std.specs.Duration.{as_nanos};
ghost use Rattle.std.specs.Time.{instant_nanos};

use crate::patience::Patience;
use std::net::OpenStream;
use std::time::{Clock, Duration, Instant};

/// Sets how long the next read or write of a stream may wait.
#[derive(Drop)]
pub struct Watch<'a, C> {
    clock: &'a C,
    step: Duration,
    end: Instant,
}

/// How long a wait that begins now may last: one step, but not past the end. `None` if no time is left.
fn time_left(now: Instant, end: Instant, step: Duration) -> Option<Duration>
    ensures { MatchOption result (min (as_nanos step) (instant_nanos end - instant_nanos now) ≡ 0)
        (λ wait. (0 < as_nanos wait) × (as_nanos wait ≡ min (as_nanos step) (instant_nanos end - instant_nanos now))) }
{
    let left = end.duration_since(now);
    let wait = if left < step { left } else { step };
    if wait.is_zero() {
        return None;
    }
    Some(wait)
}

impl<'a, C: Clock> Watch<'a, C> {
    /// A watch whose time begins now, or `None` if the clock fails.
    pub(crate) fn new(clock: &'a C, patience: Patience) -> Option<Watch<'a, C>> {
        let Ok(start) = Instant::now(clock) else {
            return None;
        };
        let Some(end) = start.checked_add(patience.whole) else {
            return None;
        };
        Some(Watch {
            clock,
            step: patience.step,
            end,
        })
    }

    /// A second watch with the same end.
    pub(crate) fn same(&self) -> Watch<'a, C> {
        Watch {
            clock: self.clock,
            step: self.step,
            end: self.end,
        }
    }

    // How long the next wait may last, if at all.
    fn left(&self) -> Option<Duration> {
        match Instant::now(self.clock) {
            Ok(now) => time_left(now, self.end, self.step),
            Err(_) => None,
        }
    }

    /// Limits the wait of the stream's next read to the time left. `false` if none is left or the limit can't be set.
    pub(crate) fn allow_read<S: OpenStream>(&self, stream: &S) -> bool {
        match self.left() {
            Some(wait) => stream.set_read_timeout(Some(wait)).is_ok(),
            None => false,
        }
    }

    /// Limits the wait of the stream's next write to the time left. `false` if none is left or the limit can't be set.
    pub(crate) fn allow_write<S: OpenStream>(&self, stream: &S) -> bool {
        match self.left() {
            Some(wait) => stream.set_write_timeout(Some(wait)).is_ok(),
            None => false,
        }
    }
}
