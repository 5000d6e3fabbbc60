//! The size of a list: the number of its sections, and of the serials and key IDs in each.

ghost use Rattle.std.specs.Prelude.{◌≡◌, ◌+◌, ◌-◌, ◌*◌, ◌^◌, ◌++◌, ◌<◌, ◌≤◌, List, ℕ, length, IfSome, Some};
ghost use Rattle.std.specs.Option.{option_map};
ghost use Rattle.std.specs.List.{flat_map, AllByRecursion};
ghost use Rattle.wire.specs.Texts.{string_text};
ghost use Rattle.krl.specs.Contents.{KrlContents, Publishes, list_of};
ghost use Rattle.krl.specs.Format.{IsPart, IsSection, IsString, Part, Section, part_data, part_text, part_type};
ghost use Rattle.krl.specs.Format.{section_data, section_text, section_type, tagged_text};
ghost use Rattle.krl.specs.declared.run.Run.{Run};
ghost use Rattle.wire.specs.Texts.{u64_text};
ghost use Rattle.list_guard.specs.Sizes.{list_size, part_size, section_size, sum_of};

use wire::Cursor;

/// The length of a published list's header in bytes.
const HEADER_LEN: usize = 44;

/// The type of a section of certificates.
const CERTIFICATES: u8 = 1;

/// The types of parts: a list of serials, a range of serials, and a list of key IDs.
const SERIAL_LIST: u8 = 0x20;

const SERIAL_RANGE: u8 = 0x21;

const KEY_ID_LIST: u8 = 0x23;

/// The next byte and the string after it.
fn next_tagged<'a>(cursor: &mut Cursor<'a>) -> Option<(u8, &'a [u8])>
    ensures only { (kind : ℕ) (data_bytes rest : List ℕ) → IsString data_bytes
        → cursor.old ≡ tagged_text kind data_bytes ++ rest
        → (option_map {U = ℕ × List ℕ} (λ x. (x.0, x.1.now)) result ≡ Some (kind, data_bytes)) × (cursor.new ≡ rest) }
    ensures shorter { IfSome result (λ x. 5 + length x.1.now + length cursor.new ≤ length cursor.old) }
{
    let kind = cursor.u8()?;
    let bytes = cursor.string()?;
    Some((kind, bytes))
}

/// The number of key IDs in the data of a list of them.
fn key_id_count(bytes: &[u8]) -> u128
    ensures count { (ids : List (List ℕ)) → AllByRecursion IsString ids → bytes.now ≡ flat_map string_text ids
        → result ≡ length ids }
    ensures bound { result ≤ length bytes.now }
{
    let mut cursor = Cursor::new(bytes);
    let mut count = 0;
    while !cursor.at_end() {
        let Some(_) = cursor.string() else {
            return count;
        };
        count += 1;
    }
    count
}

/// The number of serials in the data of a range.
fn range_size(bytes: &[u8]) -> u128
    ensures size { (r : Run) → r.lo < 2 ^ 64 → r.hi < 2 ^ 64 → bytes.now ≡ u64_text r.lo ++ u64_text r.hi
        → result ≡ r.hi + 1 - r.lo }
    ensures bound { result ≤ 2 ^ 64 }
{
    let mut cursor = Cursor::new(bytes);
    let (Some(lo), Some(hi)) = (cursor.u64(), cursor.u64()) else {
        return 0;
    };
    if hi < lo {
        return 0;
    }
    (hi - lo) as u128 + 1
}

/// The number of serials or key IDs in the part with this type and data.
fn part_size(kind: u8, bytes: &[u8]) -> u128
    ensures size { (p : Part) → IsPart p → part_type p ≡ kind → part_data p ≡ bytes.now → result ≡ part_size p }
    ensures bound { result ≤ 2 ^ 64 * (1 + length bytes.now) }
{
    match kind {
        SERIAL_LIST => (bytes.len() / 8) as u128,
        SERIAL_RANGE => range_size(bytes),
        KEY_ID_LIST => key_id_count(bytes),
        _ => 0,
    }
}

/// The number of serials and key IDs in all remaining parts.
fn parts_size(parts: Cursor<'_>) -> u128
    requires { length parts < 2 ^ 63 }
    ensures size { (ps : List Part) → AllByRecursion IsPart ps → parts.entry ≡ flat_map part_text ps
        → result ≡ sum_of part_size ps }
    ensures bound { result ≤ 2 ^ 64 * length parts.entry }
{
    let mut left = parts;
    let mut size = 0;
    while !left.at_end() {
        let Some((kind, bytes)) = next_tagged(&mut left) else {
            return size;
        };
        size += part_size(kind, bytes);
    }
    size
}

/// The size of the section with this type and data.
fn section_size(kind: u8, bytes: &[u8]) -> u128
    ensures size { (s : Section) → IsSection s → section_type s ≡ kind → section_data s ≡ bytes.now
        → result ≡ section_size s }
    ensures bound { result ≤ 2 ^ 64 * (1 + length bytes.now) }
{
    if kind != CERTIFICATES {
        return 0;
    }
    let mut cursor = Cursor::new(bytes);
    let (Some(_), Some(_)) = (cursor.string(), cursor.string()) else {
        return 0;
    };
    1 + parts_size(cursor)
}

/// The sum of the sizes of the sections.
fn sections_size(sections: &[u8]) -> u128
    ensures size { (ss : List Section) → AllByRecursion IsSection ss → sections.now ≡ flat_map section_text ss
        → result ≡ sum_of section_size ss }
    ensures bound { result ≤ 2 ^ 64 * length sections.now }
{
    let mut left = Cursor::new(sections);
    let mut size = 0;
    while !left.at_end() {
        let Some((kind, bytes)) = next_tagged(&mut left) else {
            return size;
        };
        size += section_size(kind, bytes);
    }
    size
}

/// The number of sections of a published list, plus the number of serials and key IDs in each.
pub(crate) fn list_size(list: &[u8]) -> u128
    ensures size { (c : KrlContents) → Publishes list.now c → result ≡ list_size (list_of c) }
    ensures bound { result ≤ 2 ^ 64 * length list.now }
{
    if list.len() < HEADER_LEN {
        return 0;
    }
    let (_, sections) = list.split_at(HEADER_LEN);
    sections_size(sections)
}
