//! Lengths of the written list.

ghost use Rattle.std.specs.Prelude.{◌≡◌, ◌==◌, ◌&&◌, ◌+◌, ◌*◌, ◌<◌, ◌≤◌, ℕ, length, IfSome, IsTrue, if◌then◌else◌};
ghost use Rattle.std.specs.List.{sum_by};
ghost use Rattle.std.specs.Option.{SomeIff};
ghost use Rattle.krl.specs.Sets.{AreRuns};
ghost use Rattle.krl.specs.Format.{section_data};
ghost use Rattle.krl.specs.Published.{ca_section, fits, is_idle, part_fits, published_length, serial_length};
ghost use Rattle.krl.specs.Lengths.{key_id_length, listed_length, range_length, section_length, tagged_length};

use krl::{CaPart, Run, Runs};
use lines::key_blob_of;
use text::{Text, Texts};

/// The most data bytes that a section or a part may have: its length is a 4-byte number.
const MAX_DATA: u64 = 4294967295;

// The length, if a part or a section may have it.
fn within_limit(len: u64) -> Option<u64>
    ensures { SomeIff result (len ≤ 4294967295) len }
{
    if len > MAX_DATA { None } else { Some(len) }
}

// The length of a part (type, length and data), if there is data.
fn tagged_len(content: u64) -> u64
    requires { content ≤ 4294967295 }
    ensures value { result ≡ tagged_length content }
    ensures bound { result ≤ 4294967300 }
{
    if content == 0 { 0 } else { 5 + content }
}

// The length of the run's serials, if it is short.
fn run_listed_len(run: Run) -> u64
    ensures value { result ≡ listed_length run }
    ensures bound { result ≤ 16 }
{
    if !run.is_short() {
        0
    } else if run.lo == run.hi {
        8
    } else {
        16
    }
}

// The length of the run's range, if it is long.
fn run_range_len(run: Run) -> u64
    ensures value { result ≡ range_length run }
    ensures bound { result ≤ 21 }
{
    if run.is_short() { 0 } else { 21 }
}

// The length of the serials of the short runs.
pub(crate) fn listed_len(runs: &[Run]) -> Option<u64>
    ensures { SomeIff result (sum_by listed_length runs.now ≤ 4294967295) (sum_by listed_length runs.now) }
{
    let mut len = 0;
    for run in runs {
        len += run_listed_len(*run);
        if len > MAX_DATA {
            return None;
        }
    }
    Some(len)
}

// The length of the ranges of the long runs.
fn ranges_len(runs: &[Run]) -> Option<u64>
    ensures { SomeIff result (sum_by range_length runs.now ≤ 4294967295) (sum_by range_length runs.now) }
{
    let mut len = 0;
    for run in runs {
        len += run_range_len(*run);
        if len > MAX_DATA {
            return None;
        }
    }
    Some(len)
}

fn key_id_len(id: &Text) -> u64
    ensures { result ≡ key_id_length id.now }
{
    4 + id.as_slice().len() as u64
}

// The length of the key ids, each with its length field.
pub(crate) fn key_ids_len(ids: &[Text]) -> Option<u64>
    ensures { SomeIff result (sum_by key_id_length ids.now ≤ 4294967295) (sum_by key_id_length ids.now) }
{
    let mut len: u64 = 0;
    for id in ids {
        len = len.saturating_add(key_id_len(id));
        if len > MAX_DATA {
            return None;
        }
    }
    Some(len)
}

// The length of the serial parts of the runs.
#[tactic(auto, using(krl::proofs::LengthLaws::serials_len))]
fn serials_len(runs: &[Run]) -> Option<u64>
    ensures { SomeIff result (serial_length runs.now ≤ 4294967295) (serial_length runs.now) }
{
    let Some(listed) = listed_len(runs) else {
        return None;
    };
    let Some(ranges) = ranges_len(runs) else {
        return None;
    };
    within_limit(tagged_len(listed) + ranges)
}

/// The length in bytes of the parts that a list writes for these serials, with types and lengths. `None` if and only if
/// it is over 4294967295.
pub fn serial_len(runs: &Runs) -> Option<u64>
    ensures { SomeIff result (serial_length runs.now ≤ 4294967295) (serial_length runs.now) }
{
    serials_len(runs.runs())
}

/// Whether nothing is revoked under the CA.
pub(crate) fn is_idle_part(part: &CaPart, ids: &[Text]) -> bool
    ensures value { result ≡ is_idle ids.now part.now }
    ensures lawful { AreRuns part.now.runs }
{
    part.runs.runs().is_empty() & ids.is_empty()
}

/// The length of the data of the CA's section.
#[tactic(auto, using(krl::proofs::LengthLaws::data_len))]
pub(crate) fn section_data_len(part: &CaPart, ids: &[Text]) -> Option<u64>
    ensures { SomeIff result (length (section_data (ca_section ids.now part.now)) ≤ 4294967295)
        (length (section_data (ca_section ids.now part.now))) }
{
    let blob = key_blob_of(&part.ca);
    let Some(serials) = serials_len(part.runs.runs()) else {
        return None;
    };
    let Some(key_ids) = key_ids_len(ids) else {
        return None;
    };
    within_limit(8 + blob.len() as u64 + serials + tagged_len(key_ids))
}

// The length of the CA's section, if it has one.
fn section_len(part: &CaPart, ids: &[Text]) -> Option<u64>
    ensures iff { SomeIff result (IsTrue (part_fits ids.now part.now)) (section_length ids.now part.now) }
    ensures bound { IfSome result (λ n. n ≤ 4294967300) }
{
    if is_idle_part(part, ids) {
        return Some(0);
    }
    let Some(data) = section_data_len(part, ids) else {
        return None;
    };
    Some(5 + data)
}

/// The length in bytes of the list that is written for these CAs and key ids, whatever its version and date. `None`
/// if and only if a section's data would have more than 4294967295 bytes. At most 8 parts are allowed. Allocates no
/// memory.
pub fn krl_len(parts: &[CaPart], ids: &Texts) -> Option<u64>
    requires { length parts.now ≤ 8 }
    ensures { SomeIff result (IsTrue (fits parts.now ids.now)) (published_length parts.now ids.now) }
{
    sections_len(parts, ids.as_slice())
}

fn sections_len(parts: &[CaPart], ids: &[Text]) -> Option<u64>
    requires { length parts.now ≤ 8 }
    ensures { SomeIff result (IsTrue (fits parts.now ids.now)) (published_length parts.now ids.now) }
{
    let mut len = 44;
    for part in parts {
        let Some(section) = section_len(part, ids) else {
            return None;
        };
        len += section;
    }
    Some(len)
}
