//! Goes through the sections of a published list.

ghost use Rattle.std.specs.Prelude.{◌≡◌, ◌++◌, ◌<◌, ◌↔◌, List, ℕ, length, IfSome, IsTrue};
ghost use Rattle.std.specs.Option.{option_map};
ghost use Rattle.std.specs.List.{flat_map, list_all, list_any, AllByRecursion};
ghost use Rattle.std.specs.Str.{bytes_eq};
ghost use Rattle.krl.specs.declared.ca_part.CaPart.{CaPart};
ghost use Rattle.krl.specs.Format.{IsString, tagged_text};
ghost use Rattle.krl.specs.Published.{AreDistinctCas};
ghost use Rattle.krl.specs.Fronts.{AreWhole, IsWhole, part_at, part_if_any, runs_under, section_at, section_bytes};
ghost use Rattle.krl.specs.Fronts.{whole_text};

use crate::field::is_same;
use crate::fronts::{behind, string_front};
use crate::parts::{KEY_ID_LIST, SERIAL_LIST};
use crate::reader::CERTIFICATES;
use crate::runs_left::{RunsLeft, behind_runs};
use lines::read_key_blob;

/// The largest number of CAs that a published list has sections for.
const MAX_CAS: usize = 8;

// A section that was cut off the front: its CA, and its runs with what follows them.
#[derive(Clone, Copy)]
pub(crate) struct Section<'a> {
    pub ca: [u8; 32],
    pub runs: RunsLeft<'a>,
}

// The data of a part of this type at the front; no data if there is no part of this type.
pub(crate) fn part_front(bytes: &[u8], kind: u8) -> Option<(&[u8], &[u8])>
    ensures reads { option_map (λ x. (x.0.now, x.1.now)) result ≡ part_at kind bytes.now }
    ensures found { IfSome result (λ x. bytes.now ≡ part_if_any kind x.0.now ++ x.1.now) }
{
    let Some(rest) = behind(bytes, &[kind]) else {
        return Some((&bytes[..0], bytes));
    };
    let (data, rest) = string_front(rest)?;
    if data.is_empty() {
        return None;
    }
    Some((data, rest))
}

// The section at the front.
#[tactic(auto, unfolding(crate::specs::Fronts::section_at))]
pub(crate) fn section_front(bytes: &[u8]) -> Option<(Section<'_>, &[u8])>
    ensures reads { option_map (λ x. ((x.0.ca, (x.0.runs.listed.now, x.0.runs.ranges.now)), x.1.now)) result
        ≡ section_at bytes.now }
    ensures found { IfSome result (λ x. bytes.now
        ≡ tagged_text 1 (section_bytes x.0.ca x.0.runs.listed.now x.0.runs.ranges.now) ++ x.1.now) }
    ensures key { IfSome result (λ x. length x.0.ca ≡ 32) }
    ensures short { IfSome result (λ x. IsString (section_bytes x.0.ca x.0.runs.listed.now x.0.runs.ranges.now)) }
    ensures shorter { IfSome result (λ x. length x.1.now < length bytes.now) }
{
    let begun = behind(bytes, &[CERTIFICATES])?;
    let (data, rest) = string_front(begun)?;
    let (blob, after) = string_front(data)?;
    let ca = read_key_blob(blob)?;
    let parts = behind(after, &[0; 4])?;
    let (listed, ranges) = part_front(parts, SERIAL_LIST)?;
    let runs = RunsLeft { listed, ranges };
    Some((Section { ca, runs }, rest))
}

// The section at the front, read to its end: the data of its key ids, and the bytes after the section.
pub(crate) fn whole_front(bytes: &[u8]) -> Option<(&[u8], &[u8])>
    ensures found { IfSome result (λ x. (p : CaPart) × IsWhole x.0.now p
        × (bytes.now ≡ whole_text x.0.now p ++ x.1.now)) }
    ensures only { (ids rest : List ℕ) (p : CaPart) → IsWhole ids p → bytes.now ≡ whole_text ids p ++ rest
        → option_map {U = List ℕ × List ℕ} (λ x. (x.0.now, x.1.now)) result ≡ Some (ids, rest) }
    ensures shorter { IfSome result (λ x. length x.1.now < length bytes.now) }
{
    let (section, rest) = section_front(bytes)?;
    let after = behind_runs(section.runs)?;
    let (key_ids, none) = part_front(after, KEY_ID_LIST)?;
    let is_idle = section.runs.listed.is_empty() & section.runs.ranges.is_empty();
    if !none.is_empty() | is_idle {
        return None;
    }
    Some((key_ids, rest))
}

// Whether these are whole sections with this key id data, of at most eight CAs.
pub(crate) fn are_whole(sections: &[u8], key_ids: &[u8]) -> bool
    ensures { IsTrue result ↔ ((cas : List CaPart) × AreWhole sections.now key_ids.now cas) }
{
    let mut left = sections;
    let mut count = 0;
    while !left.is_empty() {
        let Some((ids, rest)) = whole_front(left) else {
            return false;
        };
        if count == MAX_CAS || !is_same(ids, key_ids) {
            return false;
        }
        count += 1;
        left = rest;
    }
    true
}

// The runs of the CA's first section.
pub(crate) fn runs_of_ca<'a>(sections: &'a [u8], ca: &[u8; 32]) -> Option<RunsLeft<'a>>
    ensures { (ids : List ℕ) (cas : List CaPart) → AllByRecursion (IsWhole ids) cas
        → sections.now ≡ flat_map (whole_text ids) cas
        → option_map (λ r. (r.listed.now, r.ranges.now)) result ≡ runs_under ids ca.now cas }
{
    let mut left = sections;
    while let Some((section, rest)) = section_front(left) {
        if is_same(&section.ca, ca) {
            return Some(section.runs);
        }
        left = rest;
    }
    None
}

// Whether no CA has two sections.
pub(crate) fn are_distinct(sections: &[u8]) -> bool
    ensures { (ids : List ℕ) (cas : List CaPart) → AllByRecursion (IsWhole ids) cas
        → sections.now ≡ flat_map (whole_text ids) cas → IsTrue result ↔ AreDistinctCas cas }
{
    let mut left = sections;
    while let Some((section, rest)) = section_front(left) {
        if runs_of_ca(rest, &section.ca).is_some() {
            return false;
        }
        left = rest;
    }
    true
}

// Whether each section belongs to one of these CAs.
pub(crate) fn are_among(sections: &[u8], keys: &[[u8; 32]]) -> bool
    ensures { (ids : List ℕ) (cas : List CaPart) → AllByRecursion (IsWhole ids) cas
        → sections.now ≡ flat_map (whole_text ids) cas
        → result ≡ list_all (λ p. list_any (λ k. bytes_eq k p.ca) keys.now) cas }
{
    let mut left = sections;
    while let Some((section, rest)) = section_front(left) {
        if !is_key_among(&section.ca, keys) {
            return false;
        }
        left = rest;
    }
    true
}

fn is_key_among(ca: &[u8; 32], keys: &[[u8; 32]]) -> bool
    ensures { result ≡ list_any (λ k. bytes_eq k ca.now) keys.now }
{
    keys.iter().any(|key| key == ca)
}
