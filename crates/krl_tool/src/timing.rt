//! Timing lists.

use crate::answer::Answer;
use crate::listing::list_of;
use anyhow::{Result, bail};
use krl::{CaPart, KrlHead, Run, Runs, check, runs_of};
use std::alloc::{AllocError, Global};
use std::time::{Clock, Instant};
use text::Texts;

const CA: [u8; 32] = [0x11; 32];

const HEAD: KrlHead = KrlHead {
    version: 1,
    date: 3000,
};

/// The distance between the first serials of neighbouring runs: so large that ssh-keygen makes no bitmaps.
const STEP: u64 = 100;

// Runs of one, two and three serials in turn.
fn spaced_runs(alloc: Global, count: u32) -> Result<Vec<Run>, AllocError> {
    let mut runs = Vec::with_capacity(alloc, count as usize)?;
    for place in 0..u64::from(count) {
        let lo = STEP * place + 1;
        runs.push(Run {
            lo,
            hi: lo + place % 3,
        })?;
    }
    Ok(runs)
}

/// Writes a list of `count` runs to memory and checks a serial that it doesn't have. Prints the list's length and the
/// answer, and to standard error how long each step took.
pub(crate) fn time<R: Clock + Print + Eprint + AllocGlobal>(rt: &R, count: u32) -> Result<()> {
    let Some(runs) = Runs::from_runs(spaced_runs(rt.alloc(), count)?) else {
        bail!("runs that touch");
    };
    let parts = [CaPart { ca: CA, runs }];
    let start = Instant::now(rt)?;
    let list = list_of(rt.alloc(), &HEAD, &parts, &Texts::new(rt.alloc()))?;
    let written = start.elapsed(rt)?;
    let start = Instant::now(rt)?;
    let answer = Answer(check(list.as_slice(), &CA, 0, b""));
    let read = start.elapsed(rt)?;
    println!(rt; "{count} runs, {} bytes, {answer}", list.len())?;
    eprintln!(rt;
        "written in {} us, read in {} us",
        written.as_micros(),
        read.as_micros()
    )?;
    Ok(())
}

/// Adds `count` serials one by one to an empty set, at places that are `stride` apart, wrapping around. Prints how many
/// runs they make and how many of them the set didn't have, and to standard error how long it took.
pub(crate) fn add<R: Clock + Print + Eprint + AllocGlobal>(
    rt: &R,
    count: u32,
    stride: u32,
) -> Result<()> {
    let Ok(mut runs) = runs_of(rt.alloc(), &[]) else {
        bail!("out of memory");
    };
    let mut place: u32 = 0;
    let mut new: u32 = 0;
    let start = Instant::now(rt)?;
    for _ in 0..count {
        let serial = STEP * u64::from(place) + 1;
        let Ok(has_grown) = runs.add_range(rt.alloc(), serial, serial) else {
            bail!("out of memory");
        };
        if has_grown {
            new = new.wrapping_add(1);
        }
        place = place.wrapping_add(stride) % count.max(1);
    }
    let added = start.elapsed(rt)?;
    println!(rt;
        "{} runs of {count} serials, {new} of them new",
        runs.runs().len()
    )?;
    eprintln!(rt; "added in {} us", added.as_micros())?;
    Ok(())
}
