//! Sets of serials, gathered in one step.

ghost use Rattle.std.specs.List.Sorted.{IsStrictlyIncreasing};

use anyhow::{Result, bail};
use krl::runs_of;
use text::NoMemory;

// Sorts the serials, ascending, and removes duplicates.
fn sort_once(serials: &mut Vec<u64>)
    ensures { IsStrictlyIncreasing serials.new.items }
{
    serials.sort_unstable();
    serials.dedup();
}

/// Prints the runs of these serials, which are given in any order: ascending, one `LO-HI` per line. If memory is
/// refused, nothing is printed.
pub(crate) fn gather<R: Print + AllocGlobal>(rt: &R, words: &[&str]) -> Result<()> {
    let mut serials: Vec<u64> = Vec::with_capacity(rt.alloc(), words.len())?;
    for word in words {
        serials.push(word.parse()?)?;
    }
    sort_once(&mut serials);
    let runs = match runs_of(rt.alloc(), serials.as_slice()) {
        Ok(runs) => runs,
        Err(NoMemory) => bail!("NoMemory"),
    };
    for run in runs.runs() {
        println!(rt; "{}-{}", run.lo, run.hi)?;
    }
    Ok(())
}
