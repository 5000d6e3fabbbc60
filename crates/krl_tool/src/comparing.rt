//! Comparing lists.

ghost use Rattle.std.specs.Prelude.{◌≡◌, ◌↔◌, IfSome, IsTrue, option_copied, Some};
ghost use Rattle.krl.specs.Contents.{KrlContents, ForgetsNothing, Publishes, list_of};

use anyhow::{Context, Result, bail};
use krl::{forgets_nothing, read_published};
use std::fs;
use std::rt::Files;

/// Whether the new list keeps everything that the old one revokes. `None` if one of the two isn't a published list.
fn keeps(old: &[u8], new: &[u8]) -> Option<bool>
    ensures { IfSome result (λ kept. (o n : KrlContents) → Publishes old.now o → Publishes new.now n
        → IsTrue kept ↔ ForgetsNothing (list_of o) (list_of n)) }
{
    let old = read_published(old)?;
    let new = read_published(new)?;
    Some(forgets_nothing(&old, &new))
}

/// Prints a line for each list but the first: `keeps` if it revokes everything that the one before it does, `forgets`
/// if it doesn't, and `not published` if one of the two isn't a published list.
pub(crate) fn compare<R: Files + Print + AllocGlobal>(rt: &R, files: &[&str]) -> Result<()> {
    let Some((first, others)) = files.split_first() else {
        bail!("no list");
    };
    let mut old = fs::read(rt, *first).context(format_args!("reading {first}"))?;
    for file in others {
        let new = fs::read(rt, *file).context(format_args!("reading {file}"))?;
        let said = match keeps(old.as_slice(), new.as_slice()) {
            Some(true) => "keeps",
            Some(false) => "forgets",
            None => "not published",
        };
        println!(rt; "{said}")?;
        old = new;
    }
    Ok(())
}
