//! Reads the parts of a certificates section.

ghost use Rattle.std.specs.Prelude.{◌≡◌, ◌≢◌, ◌==◌, ◌++◌, ◌<◌, ◌^◌, [], List, ℕ, IfSome, IfNone, IfOk, IfErr};
ghost use Rattle.std.specs.List.{flat_map, AllByRecursion};
ghost use Rattle.std.specs.Str.{bytes_eq};
ghost use Rattle.wire.specs.Texts.{string_text, u64_text};
ghost use Rattle.krl.specs.declared.run.Run.{Run};
ghost use Rattle.krl.specs.Sets.{is_within};
ghost use Rattle.krl.specs.Format.{IsString, names, part_text};
ghost use Rattle.krl.specs.Faults.{IsReadPart, IsU64, PartFault, PartsFault};
ghost use Rattle.krl.specs.Reading.{AreItems, ReadsPart, ReadsPartData, RefusesPartData};
ghost use Rattle.text.specs.Bytes.{IsBytes};

use crate::field::{is_same, next_string, next_tagged};
use crate::krl_fault::KrlFault;
use crate::run::Run;
use wire::Cursor;

/// The type of a part that lists serials (`KRL_SECTION_CERT_SERIAL_LIST`).
pub const SERIAL_LIST: u8 = 0x20;

/// The type of a part that is a range of serials (`KRL_SECTION_CERT_SERIAL_RANGE`).
pub const SERIAL_RANGE: u8 = 0x21;

/// The type of a part that lists key ids (`KRL_SECTION_CERT_KEY_ID`).
pub const KEY_ID_LIST: u8 = 0x23;

// Whether a serial list has the serial. `None` if the data isn't a list of serials.
fn serials_name(bytes: &[u8], serial: u64) -> Option<bool>
    ensures found { IfSome result (λ b. AreItems u64_text IsU64 (λ n. serial == n) bytes.now b) }
    ensures none { IfNone result ((ns : List ℕ) → AllByRecursion IsU64 ns → bytes.now ≢ flat_map u64_text ns) }
{
    let mut cursor = Cursor::new(bytes);
    let mut named = false;
    while !cursor.at_end() {
        let Some(next) = cursor.u64() else {
            return None;
        };
        named |= serial == next;
    }
    Some(named)
}

// Whether a range has the serial. `None` if the data isn't a range.
fn range_names(bytes: &[u8], serial: u64) -> Option<bool>
    ensures found { IfSome result (λ b. (r : Run) × (r.lo < 2 ^ 64) × (r.hi < 2 ^ 64)
        × (bytes.now ≡ u64_text r.lo ++ u64_text r.hi) × (b ≡ is_within serial r)) }
    ensures none { IfNone result ((r : Run) → r.lo < 2 ^ 64 → r.hi < 2 ^ 64
        → bytes.now ≢ u64_text r.lo ++ u64_text r.hi) }
{
    let mut cursor = Cursor::new(bytes);
    let Some(lo) = cursor.u64() else {
        return None;
    };
    let Some(hi) = cursor.u64() else {
        return None;
    };
    if !cursor.at_end() {
        return None;
    }
    Some(Run { lo, hi }.has(serial))
}

// Whether a key id list has the key id. `None` if the data isn't a list of at least one key id.
fn key_ids_name(bytes: &[u8], key_id: &[u8]) -> Option<bool>
    ensures some { IfSome result (λ b. bytes.now ≢ []) }
    ensures found { IfSome result (λ b. AreItems string_text IsString (λ i. bytes_eq i key_id.now) bytes.now b) }
    ensures none { IfNone result ((ids : List (List ℕ)) → ids ≢ [] → AllByRecursion IsString ids
        → bytes.now ≢ flat_map string_text ids) }
{
    let mut cursor = Cursor::new(bytes);
    if cursor.at_end() {
        return None;
    }
    let mut named = false;
    while !cursor.at_end() {
        let Some(next) = next_string(&mut cursor) else {
            return None;
        };
        named |= is_same(next, key_id);
    }
    Some(named)
}

// Whether the part with this type and data names the serial or the key id.
fn data_names(kind: u8, bytes: &[u8], serial: u64, key_id: &[u8]) -> Result<bool, KrlFault>
    requires { IsString bytes.now }
    ensures found { IfOk result (ReadsPartData kind bytes.now serial key_id.now) }
    ensures fault { IfErr result (RefusesPartData kind bytes.now) }
{
    match kind {
        SERIAL_LIST => serials_name(bytes, serial).ok_or(KrlFault::BadSection),
        SERIAL_RANGE => range_names(bytes, serial).ok_or(KrlFault::BadSection),
        KEY_ID_LIST => key_ids_name(bytes, key_id).ok_or(KrlFault::BadSection),
        other => Err(KrlFault::Unsupported(other)),
    }
}

// Reads the next part: whether it names the serial or the key id.
fn read_part(cursor: &mut Cursor<'_>, serial: u64, key_id: &[u8]) -> Result<bool, KrlFault>
    requires { IsBytes cursor.old }
    ensures found { IfOk result (ReadsPart cursor.old cursor.new serial key_id.now) }
    ensures fault { IfErr result (PartFault cursor.old) }
{
    let Some((kind, data)) = next_tagged(cursor) else {
        return Err(KrlFault::BadSection);
    };
    data_names(kind, data, serial, key_id)
}

// Reads one or more parts, to the end: whether one of them names the serial or the key id.
pub(crate) fn read_parts(
    cursor: &mut Cursor<'_>,
    serial: u64,
    key_id: &[u8],
) -> Result<bool, KrlFault>
    requires { IsBytes cursor.old }
    ensures some { IfOk result (λ b. cursor.old ≢ []) }
    ensures found { IfOk result (AreItems part_text IsReadPart (names serial key_id.now) cursor.old) }
    ensures fault { IfErr result (PartsFault cursor.old) }
{
    if cursor.at_end() {
        return Err(KrlFault::BadSection);
    }
    let mut named = false;
    while !cursor.at_end() {
        named |= read_part(cursor, serial, key_id)?;
    }
    Ok(named)
}
