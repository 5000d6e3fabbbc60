//! Reads the runs of a published section.

ghost use Rattle.std.specs.Prelude.{◌≡◌, ◌++◌, ◌+◌, ◌<◌, ◌≤◌, ◌^◌, ◌↔◌, List, ℕ, length, true, false};
ghost use Rattle.std.specs.Prelude.{IfSome, IsTrue};
ghost use Rattle.std.specs.Prelude.{option_copied};
ghost use Rattle.std.specs.Option.{option_map, option_map_or};
ghost use Rattle.krl.specs.declared.run.Run.{Run};
ghost use Rattle.krl.specs.Sets.{AreRuns, contains};
ghost use Rattle.krl.specs.Published.{is_short};
ghost use Rattle.krl.specs.Lengths.{listed_text, range_text};
ghost use Rattle.krl.specs.Fronts.{AreSplit, behind_at, long_at, range_begin, run_at, short_at};

use crate::fronts::{behind, u64_front};
use crate::run::Run;

// The runs that remain: the list of the serials of the short ones, and the ranges of the others with what follows
// them.
#[derive(Clone, Copy)]
pub(crate) struct RunsLeft<'a> {
    pub listed: &'a [u8],
    pub ranges: &'a [u8],
}

// The run of one or two serials at the front of a list of serials.
#[tactic(auto, unfolding(crate::specs::Fronts::short_at))]
fn short_front(bytes: &[u8]) -> Option<(Run, &[u8])>
    ensures reads { option_map (λ x. (x.0, x.1.now)) result ≡ short_at bytes.now }
    ensures order { IfSome result (λ x. x.0.lo ≤ x.0.hi) }
    ensures short { IfSome result (λ x. is_short x.0 ≡ true) }
    ensures found { IfSome result (λ x. bytes.now ≡ listed_text x.0 ++ x.1.now) }
    ensures shorter { IfSome result (λ x. length x.1.now < length bytes.now) }
{
    let (lo, rest) = u64_front(bytes)?;
    match u64_front(rest) {
        Some((hi, after)) if lo < hi && hi - lo == 1 => Some((Run { lo, hi }, after)),
        _ => Some((Run { lo, hi: lo }, rest)),
    }
}

// The range of at least three serials at the front.
#[tactic(auto, unfolding(crate::specs::Fronts::long_at))]
fn long_front(bytes: &[u8]) -> Option<(Run, &[u8])>
    ensures reads { option_map (λ x. (x.0, x.1.now)) result ≡ long_at bytes.now }
    ensures order { IfSome result (λ x. x.0.lo ≤ x.0.hi) }
    ensures long { IfSome result (λ x. is_short x.0 ≡ false) }
    ensures found { IfSome result (λ x. bytes.now ≡ range_text x.0 ++ x.1.now) }
    ensures shorter { IfSome result (λ x. length x.1.now < length bytes.now) }
{
    let begun = behind(bytes, b"\x21\0\0\0\x10")?;
    let (lo, rest) = u64_front(begun)?;
    let (hi, rest) = u64_front(rest)?;
    let run = Run { lo, hi };
    if run.is_short() {
        None
    } else {
        Some((run, rest))
    }
}

// The lowest run that remains, and the others.
pub(crate) fn next_run(left: RunsLeft<'_>) -> Option<(Run, RunsLeft<'_>)>
    ensures reads { option_map (λ x. (x.0, (x.1.listed.now, x.1.ranges.now))) result
        ≡ run_at left.entry.listed.now left.entry.ranges.now }
    ensures order { IfSome result (λ x. x.0.lo ≤ x.0.hi) }
    ensures bound { IfSome result (λ x. x.0.hi < 2 ^ 64) }
    ensures listed { IfSome result (λ x. left.entry.listed.now ≡ listed_text x.0 ++ x.1.listed.now) }
    ensures ranges { IfSome result (λ x. left.entry.ranges.now ≡ range_text x.0 ++ x.1.ranges.now) }
    ensures shorter { IfSome result (λ x. length x.1.listed.now + length x.1.ranges.now
        < length left.entry.listed.now + length left.entry.ranges.now) }
{
    let short = short_front(left.listed);
    let long = long_front(left.ranges);
    match (short, long) {
        (Some((short, listed)), Some((long, _))) if short.lo < long.lo => Some((
            short,
            RunsLeft { listed, ..left },
        )),
        (_, Some((long, ranges))) => Some((long, RunsLeft { ranges, ..left })),
        (Some((short, listed)), None) => Some((short, RunsLeft { listed, ..left })),
        (None, None) => None,
    }
}

// Whether the run may come after the last one, if there is one.
fn may_follow(last: Option<Run>, run: Run) -> bool
    ensures { IsTrue result ↔ (option_map_or (λ r. r.hi + 2) last 0 ≤ run.lo) }
{
    match last {
        None => true,
        Some(last) => last.is_clear_below(run),
    }
}

// The bytes after the runs, if all are runs that ascend with a serial between any two.
pub(crate) fn behind_runs(left: RunsLeft<'_>) -> Option<&[u8]>
    ensures found { IfSome result (λ after. (rs : List Run) × AreRuns rs
        × AreSplit left.entry.listed.now left.entry.ranges.now rs after.now) }
    ensures only { (rs : List Run) (after : List ℕ) → AreRuns rs → behind_at range_begin after ≡ None
        → AreSplit left.entry.listed.now left.entry.ranges.now rs after → option_copied result ≡ Some after }
{
    let mut left = left;
    let mut last = None;
    while let Some((run, others)) = next_run(left) {
        if !may_follow(last, run) {
            return None;
        }
        last = Some(run);
        left = others;
    }
    if left.listed.is_empty() {
        Some(left.ranges)
    } else {
        None
    }
}

// Whether each serial of the old runs is in the new ones.
pub(crate) fn keeps_runs(old: RunsLeft<'_>, new: RunsLeft<'_>) -> bool
    ensures { (rs qs : List Run) (a b : List ℕ) → AreRuns rs → AreRuns qs
        → behind_at range_begin a ≡ None → behind_at range_begin b ≡ None
        → AreSplit old.entry.listed.now old.entry.ranges.now rs a
        → AreSplit new.entry.listed.now new.entry.ranges.now qs b
        → IsTrue result ↔ ((n : ℕ) → contains rs n ≡ true → contains qs n ≡ true) }
{
    let mut old = old;
    let mut new = new;
    while let Some((run, rest)) = next_run(old) {
        let Some((over, others)) = next_run(new) else {
            return false;
        };
        if over.hi < run.lo {
            new = others;
        } else if over.lo <= run.lo && run.hi <= over.hi {
            old = rest;
        } else {
            return false;
        }
    }
    true
}
