//! Sets of serials as runs.

ghost use Rattle.std.specs.Prelude.{All, true, false, ◌≡◌, ◌≢◌, ◌↔◌, IsTrue, nat_le, ◌&&◌, ◌||◌};
ghost use Rattle.std.specs.Prelude.{◌<◌, ◌≤◌, ◌-◌, ◌^◌, ℕ, ◌+◌, [], ◌∷◌, IsSome, IfSome, OnOk};
ghost use Rattle.std.specs.Prelude.{OnErr, IfOk, vec_len, length, slice_get, slice_index_or};
ghost use Rattle.std.specs.Bool.{OnTrue, OnFalse};
ghost use Rattle.std.specs.List.{list_any, filter_map};
ghost use Rattle.std.specs.List.Sorted.{IsStrictlyIncreasing, IsNonDecreasing, IsPartitionPoint};
ghost use Rattle.krl.specs.Sets.{AreRuns, HasAll, contains, cut_run, is_among, is_below_bound, is_last_reached};
ghost use Rattle.krl.specs.Sets.{is_within};

use crate::run::Run;
use std::alloc::{AllocError, Global};
use std::marker::Model;
use text::NoMemory;

/// A set of serials. Contracts see it as its runs: ascending, and no two of them overlap or touch.
#[derive(Drop)]
pub struct Runs {
    runs: Vec<Run>,
}

impl Model for Runs {
    ghost use Rattle.std.specs.Prelude.{List};
    ghost use Rattle.krl.specs.declared.run.Run.{Run};

    ghost Value = { List Run };

    ghost use Rattle.krl.specs.Sets.{AreRuns};

    ghost view = { λ s. s.runs.items };

    ghost invariant = { λ s. AreRuns s.runs.items };
}

impl Runs {
    /// The runs of a vector, which is moved and not copied. `None`, with the vector dropped, if and only if one
    /// of them ends before it begins, or they don't ascend with a serial between any two.
    pub fn from_runs(runs: Vec<Run>) -> Option<Runs>
        ensures kept { IfSome result (λ r. r ≡ runs.items) }
        ensures lawful { IsSome result ↔ AreRuns runs.items }
    {
        if are_runs(runs.as_slice()) {
            Some(Runs { runs })
        } else {
            None
        }
    }

    /// The runs, ascending.
    pub fn runs(&self) -> &[Run]
        ensures kept { result.now ≡ self.now }
        ensures lawful { AreRuns result.now }
    {
        self.runs.as_slice()
    }

    /// Whether each serial from `lo` to `hi`, both included, is in the set. Requires `lo` ≤ `hi`.
    pub fn has_all(&self, lo: u64, hi: u64) -> bool
        requires { lo ≤ hi }
        ensures { IsTrue result ↔ HasAll (contains self.now) lo hi }
    {
        covers(self.runs.as_slice(), lo, hi)
    }

    /// Adds the serials from `lo` to `hi`, both included, with 1 ≤ `lo` ≤ `hi` ≤ 9223372036854775806. Returns whether
    /// the set changed.
    ///
    /// # Errors
    ///
    /// `NoMemory`, if an allocation was refused. The set is unchanged.
    pub fn add_range(&mut self, alloc: Global, lo: u64, hi: u64) -> Result<bool, NoMemory>
        requires low { 1 ≤ lo }
        requires order { lo ≤ hi }
        requires high { hi < 2 ^ 63 - 1 }
        ensures union { OnOk result ((n : ℕ) → contains self.new n
            ≡ (is_within n (record { lo = lo; hi = hi }) || contains self.old n)) }
        ensures changed { IfOk result (λ changed. OnTrue changed (self.new ≢ self.old)) }
        ensures same { IfOk result (λ changed. OnFalse changed (self.new ≡ self.old)) }
        ensures err { OnErr result (self.new ≡ self.old) }
    {
        if self.has_all(lo, hi) {
            return Ok(false);
        }
        let runs = joined(alloc, self.runs.as_slice(), Run { lo, hi })?;
        self.runs = runs;
        Ok(true)
    }

    /// The set cut at the numbers of `since`, which don't descend: for each place, the serials that reach its number
    /// but not that of any later place. A serial below all of them belongs to no place.
    ///
    /// # Errors
    ///
    /// `NoMemory`, if an allocation was refused.
    pub fn split(&self, alloc: Global, since: &[u64]) -> Result<Vec<Runs>, NoMemory>
        requires { IsNonDecreasing since.now }
        ensures places { IfOk result (λ v. vec_len v ≡ length since.now) }
        ensures runs { IfOk result (λ v. All AreRuns v.items) }
        ensures split { IfOk result (λ v. (k n : ℕ) → k < length since.now
            → contains (slice_index_or v.items k []) n ≡ (is_last_reached since.now k n && contains self.now n)) }
    {
        let mut parts = Vec::with_capacity(alloc, since.len())?;
        for place in 0..since.len() {
            parts.push(Runs {
                runs: part_at(alloc, self.runs.as_slice(), since, place)?,
            })?;
        }
        Ok(parts)
    }
}

// The serials that reach the number at the place, but not that of any later place.
fn part_at(alloc: Global, runs: &[Run], since: &[u64], place: usize) -> Result<Vec<Run>, NoMemory>
    requires runs { AreRuns runs.now }
    requires ascending { IsNonDecreasing since.now }
    requires there { place < length since.now }
    ensures runs { IfOk result (λ v. AreRuns v.items) }
    ensures part { IfOk result (λ v. (n : ℕ) → contains v.items n
        ≡ (is_last_reached since.now place n && contains runs.now n)) }
{
    between(alloc, runs, since[place], number_at(since, place + 1))
}

fn number_at(numbers: &[u64], place: usize) -> Option<u64>
    ensures { result ≡ slice_get numbers.now place }
{
    numbers.get(place).copied()
}

// The parts of the runs that are at or above one serial and below the bound.
fn between(
    alloc: Global,
    runs: &[Run],
    from: u64,
    before: Option<u64>,
) -> Result<Vec<Run>, NoMemory>
    requires { AreRuns runs.now }
    ensures runs { IfOk result (λ v. AreRuns v.items) }
    ensures cut { IfOk result (λ v. (n : ℕ) → contains v.items n
        ≡ ((nat_le from n && is_below_bound n before) && contains runs.now n)) }
{
    Ok(cut_runs(alloc, runs, from, before)?)
}

fn cut_runs(
    alloc: Global,
    runs: &[Run],
    from: u64,
    before: Option<u64>,
) -> Result<Vec<Run>, AllocError>
    ensures { IfOk result (λ v. v.items ≡ filter_map (cut_run from before) runs.now) }
{
    runs.iter()
        .filter_map(|run| run.cut_to(from, before))
        .collect(alloc)
}

// How many of the runs begin at or below the serial.
fn count_begun(runs: &[Run], serial: u64) -> usize
    requires { AreRuns runs.now }
    ensures bound { result ≤ length runs.now }
    ensures point { IsPartitionPoint (λ r. nat_le r.lo serial ≡ true) (λ r. nat_le r.lo serial ≡ false)
        runs.now result }
{
    runs.partition_point(|run| run.lo <= serial)
}

// Whether one of the runs covers the whole interval: that can only be the last one that begins at or below it.
fn covers(runs: &[Run], lo: u64, hi: u64) -> bool
    requires { AreRuns runs.now }
    ensures { result ≡ list_any (λ r. nat_le r.lo lo && nat_le hi r.hi) runs.now }
{
    let count = count_begun(runs, lo);
    count > 0 && hi <= runs[count - 1].hi
}

fn are_runs(runs: &[Run]) -> bool
    ensures { IsTrue result ↔ AreRuns runs.now }
{
    let Some((first, rest)) = runs.split_first() else {
        return true;
    };
    if first.lo > first.hi {
        return false;
    }
    let mut last = *first;
    for run in rest {
        if run.lo > run.hi || !last.is_clear_below(*run) {
            return false;
        }
        last = *run;
    }
    true
}

// The runs of the set with the interval added.
fn joined(alloc: Global, runs: &[Run], with: Run) -> Result<Vec<Run>, NoMemory>
    requires runs { AreRuns runs.now }
    requires order { with.lo ≤ with.hi }
    ensures runs { IfOk result (λ v. AreRuns v.items) }
    ensures union { IfOk result (λ v. (n : ℕ) → contains v.items n ≡ (is_within n with || contains runs.now n)) }
{
    let mut out = Vec::new(alloc);
    let mut carried = with;
    for run in runs {
        if run.is_clear_below(carried) {
            out.push(*run)?;
        } else if carried.is_clear_below(*run) {
            out.push(carried)?;
            carried = *run;
        } else {
            carried = Run {
                lo: carried.lo.min(run.lo),
                hi: carried.hi.max(run.hi),
            };
        }
    }
    out.push(carried)?;
    Ok(out)
}

/// The set of strictly ascending serials.
///
/// # Errors
///
/// `NoMemory`, if an allocation was refused.
pub fn runs_of(alloc: Global, serials: &[u64]) -> Result<Runs, NoMemory>
    requires { IsStrictlyIncreasing serials.now }
    ensures { IfOk result (λ r. (n : ℕ) → contains r n ≡ is_among serials.now n) }
{
    let Some((first, rest)) = serials.split_first() else {
        return Ok(Runs {
            runs: Vec::new(alloc),
        });
    };
    Ok(Runs {
        runs: gathered(alloc, *first, rest)?,
    })
}

// The runs of a serial and of the serials above it.
fn gathered(alloc: Global, first: u64, rest: &[u64]) -> Result<Vec<Run>, NoMemory>
    requires { IsStrictlyIncreasing (first ∷ rest.now) }
    ensures runs { IfOk result (λ v. AreRuns v.items) }
    ensures among { IfOk result (λ v. (n : ℕ) → contains v.items n ≡ is_among (first ∷ rest.now) n) }
{
    let mut out = Vec::new(alloc);
    let mut carried = Run {
        lo: first,
        hi: first,
    };
    for serial in rest {
        if serial.saturating_sub(carried.hi) == 1 {
            carried.hi = *serial;
        } else {
            out.push(carried)?;
            carried = Run {
                lo: *serial,
                hi: *serial,
            };
        }
    }
    out.push(carried)?;
    Ok(out)
}
