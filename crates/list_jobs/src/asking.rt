//! Reading a question from files: the keys of the CAs, and the list.

ghost use Rattle.std.specs.Prelude.{◌≡◌, Err, IfErr, IfOk, map, string_bytes};
ghost use Rattle.list_jobs.specs.Asking.{AreKeysAt, HasFaultAt, IsFaultOf, IsKeyAt, IsListAt};
ghost use Rattle.lines.specs.declared.key_line.LineFault.{LineFault};
ghost use Rattle.station_jobs.specs.Faults.{IsOfAFile, IsOfAKey};

use crate::file_reader::read_whole;
use list_guard::LONGEST_LIST;
use station_jobs::{StationFault, Surroundings, scope_from};
use std::alloc::Global;
use std::io::Read;

/// A question as it is asked on the command line: the paths of the CAs' public-key lines, whether this may be the first
/// list, and the path of the list.
#[derive(Clone, Copy)]
pub struct Listing<'a> {
    /// The paths of the files with the CAs' public-key lines.
    pub cas: &'a [String],
    /// Whether a first list is accepted.
    pub begins: bool,
    /// The path of the list.
    pub list: &'a str,
}

/// The key in the file at a path. It is read as the key of a scope, whose range of serials isn't used.
fn key_at<F: Read + Drop, P: Surroundings<File = F>>(
    alloc: Global,
    around: &P,
    path: &str,
) -> Result<[u8; 32], StationFault>
    ensures key { IfOk result (IsKeyAt P.Surroundings around.now F.remaining path.now) }
    ensures only { IfErr result IsOfAKey }
    ensures fault { (e : LineFault) → result ≡ Err (StationFault.Line e)
        → HasFaultAt P.Surroundings around.now F.remaining path.now e }
{
    match around.open(path) {
        Ok(file) => match scope_from(alloc, file, 1, 1) {
            Ok(scope) => Ok(scope.ca),
            Err(fault) => Err(fault),
        },
        Err(fault) => Err(fault),
    }
}

/// The keys in the files at these paths, in order.
pub fn keys_at<F: Read + Drop, P: Surroundings<File = F>>(
    alloc: Global,
    around: &P,
    paths: &[String],
) -> Result<Vec<[u8; 32]>, StationFault>
    ensures keys { IfOk result (λ keys. AreKeysAt P.Surroundings around.now F.remaining
        (map string_bytes paths.now) keys.items) }
    ensures fault { IfErr result (IsFaultOf P.Surroundings around.now F.remaining (map string_bytes paths.now)) }
{
    let mut keys = Vec::new(alloc);
    for path in paths {
        let path = path.as_str();
        match key_at(alloc, around, path) {
            Ok(key) => match keys.push(key) {
                Ok(()) => {}
                Err(_) => return Err(StationFault::NoMemory),
            },
            Err(fault) => return Err(fault),
        }
    }
    Ok(keys)
}

/// The list in the file at a path. A file of more than `LONGEST_LIST` bytes is a fault.
pub fn list_at<F: Read + Drop, P: Surroundings<File = F>>(
    alloc: Global,
    around: &P,
    path: &str,
) -> Result<Vec<u8>, StationFault>
    ensures list { IfOk result (λ bytes. IsListAt P.Surroundings around.now F.remaining path.now bytes.items) }
    ensures only { IfErr result IsOfAFile }
{
    match around.open(path) {
        Ok(file) => read_whole(alloc, file, LONGEST_LIST),
        Err(fault) => Err(fault),
    }
}
