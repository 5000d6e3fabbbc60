//! Whole jobs over the list guard in a file.

ghost use Rattle.std.specs.Prelude.{◌≡◌, map, string_bytes};
ghost use Rattle.list_guard.specs.Judged.{question};
ghost use Rattle.list_jobs.specs.Jobs.{InitsIn, ListsIn, MakesIn, RunsIn, RunsJob};
ghost use Rattle.list_jobs.specs.Stating.{States};

use crate::asking::{Listing, keys_at, list_at};
use crate::list_file::ListFile;
use crate::stating::state_list;
use crate::telling::closed;
use list_guard::ListRegister;
use station_jobs::{StationFault, Surroundings, print};
use std::alloc::Global;
use std::io::{Read, Write};
use text::Text;

/// A job over the list guard in a file.
#[derive(Clone, Copy)]
pub enum ListJob<'a> {
    /// Makes a list guard that has approved nothing yet, and reports this.
    Init,
    /// Judges a list, and prints the line of the answer.
    List(Listing<'a>),
}

/// Makes a list guard in a file.
fn make_in<G, D: ListFile<Guard = G>>(
    alloc: Global,
    db: &mut D,
    path: &str,
) -> Result<(), StationFault>
    ensures { MakesIn D.ListFile db.old db.new path.now result }
{
    match db.make(alloc, path) {
        Ok(guard) => db.close(guard),
        Err(fault) => Err(fault),
    }
}

/// Makes a list guard in a file, and reports this.
fn init_in<G, D: ListFile<Guard = G>, W: Write>(
    alloc: Global,
    db: &mut D,
    path: &str,
    out: &mut W,
) -> Result<(), StationFault>
    ensures { InitsIn D.ListFile db.old db.new path.now (W.contents out.old) (W.contents out.new) result }
{
    match make_in(alloc, db, path) {
        Ok(()) => print(out, b"lists ready\n"),
        Err(fault) => Err(fault),
    }
}

/// Judges a list over the list guard in a file, and prints the line of the answer.
fn state_in<
    F: Read + Drop,
    P: Surroundings<File = F>,
    G: ListRegister,
    D: ListFile<Guard = G>,
    W: Write,
>(
    alloc: Global,
    around: &P,
    db: &mut D,
    path: &str,
    keys: &[[u8; 32]],
    begins: bool,
    list: Text,
    out: &mut W,
) -> Result<(), StationFault>
    ensures { RunsIn D.ListFile db.old db.new path.now (States P.Surroundings around.now G.ListRegister
        (question keys.now begins list) (W.contents out.old) (W.contents out.new))
        (W.contents out.new ≡ W.contents out.old) result }
{
    match db.open(alloc, path) {
        Ok(guard) => {
            let mut guard = guard;
            let done = state_list(alloc, around, &mut guard, keys, begins, list, out);
            closed(done, db.close(guard))
        }
        Err(fault) => {
            drop(list);
            Err(fault)
        }
    }
}

/// Judges the list in one file over the list guard in another, and prints the line of the answer. The keys and the list
/// are read before the guard's file is opened.
fn list_in<
    F: Read + Drop,
    P: Surroundings<File = F>,
    G: ListRegister,
    D: ListFile<Guard = G>,
    W: Write,
>(
    alloc: Global,
    around: &P,
    db: &mut D,
    path: &str,
    listing: &Listing<'_>,
    out: &mut W,
) -> Result<(), StationFault>
    ensures { ListsIn P.Surroundings around.now F.remaining G.ListRegister D.ListFile db.old db.new
        path.now (map string_bytes listing.now.cas.now) listing.now.begins listing.now.list.now (W.contents out.old)
        (W.contents out.new) result }
{
    match keys_at(alloc, around, listing.cas) {
        Ok(keys) => match list_at(alloc, around, listing.list) {
            Ok(list) => {
                let begins = listing.begins;
                let (keys, list) = (keys.as_slice(), Text::from_vec(list));
                state_in(alloc, around, db, path, keys, begins, list, out)
            }
            Err(fault) => Err(fault),
        },
        Err(fault) => Err(fault),
    }
}

/// Does a job over the list guard in the file at a path, from opening it to closing it.
///
/// # Errors
///
/// The first fault, in this order: of the CAs' files, of the list's file, of the guard's file, of the clock, of the
/// register, of the output. If there is none of these, a fault of the closing.
pub fn run_in<
    F: Read + Drop,
    P: Surroundings<File = F>,
    G: ListRegister,
    D: ListFile<Guard = G>,
    W: Write,
>(
    alloc: Global,
    around: &P,
    db: &mut D,
    path: &str,
    job: &ListJob<'_>,
    out: &mut W,
) -> Result<(), StationFault>
    ensures { RunsJob P.Surroundings around.now F.remaining G.ListRegister D.ListFile db.old db.new path.now job.now
        (W.contents out.old) (W.contents out.new) result }
{
    match job {
        ListJob::Init => init_in(alloc, db, path, out),
        ListJob::List(listing) => list_in(alloc, around, db, path, listing, out),
    }
}
