//! A run of serials.

ghost use Rattle.std.specs.Prelude.{◌≡◌, IsTrue, ◌↔◌, ◌+◌, ◌<◌};

/// The serials from `lo` to `hi`, both included.
#[derive(Clone, Copy, PartialEq, Eq)]
pub struct Run {
    /// The first serial.
    pub lo: u64,
    /// The last serial.
    pub hi: u64,
}

impl Run {
    ghost use Rattle.krl.specs.Sets.{cut_run, is_within};
    ghost use Rattle.krl.specs.Published.{is_short};

    /// Whether the serial is in the run.
    pub(crate) fn has(self, serial: u64) -> bool
        ensures { result ≡ is_within serial self }
    {
        self.lo <= serial && serial <= self.hi
    }

    /// Whether the run has one or two serials.
    pub fn is_short(self) -> bool
        ensures { result ≡ is_short self }
    {
        self.hi < self.lo || self.hi - self.lo < 2
    }

    /// Whether the run ends before the other begins, with a serial between them.
    pub(crate) fn is_clear_below(self, other: Run) -> bool
        ensures { IsTrue result ↔ (self.hi + 1 < other.lo) }
    {
        self.hi < other.lo && other.lo - self.hi > 1
    }

    /// The part of the run that is at or above one serial and below the bound.
    pub(crate) fn cut_to(self, from: u64, before: Option<u64>) -> Option<Run>
        ensures { result ≡ cut_run from before self }
    {
        let lo = self.lo.max(from);
        let hi = match before {
            Some(bound) if bound <= lo => return None,
            Some(bound) => self.hi.min(bound - 1),
            None => self.hi,
        };
        if lo <= hi { Some(Run { lo, hi }) } else { None }
    }
}
