//! Published lists, read in place and compared.

ghost use Rattle.std.specs.Prelude.{◌≡◌, ◌↔◌, [], List, ℕ, IfSome, IsSome, IsTrue, option_copied};
ghost use Rattle.std.specs.List.{flat_map, AllByRecursion};
ghost use Rattle.krl.specs.declared.ca_part.CaPart.{CaPart};
ghost use Rattle.krl.specs.Contents.{KrlContents, ForgetsNothing, IsPublished, Publishes, list_of};
ghost use Rattle.krl.specs.Fronts.{ArePartsKept, AreSections, AreWhole, IsWhole, whole_text};

use crate::fronts::head_front;
use crate::key_ids::{are_key_ids, keeps_ids};
use crate::krl_head::KrlHead;
use crate::runs_left::keeps_runs;
use crate::sections::{are_among, are_distinct, are_whole, runs_of_ca, section_front, whole_front};
use std::marker::Model;

/// A published list, read in place. Contracts see it as its bytes: `Publishes` says what they publish, and they publish
/// only one list (`a_text_has_one_list`).
#[derive(Drop)]
pub struct PublishedList<'a> {
    head: KrlHead,
    sections: &'a [u8],
    key_ids: &'a [u8],
}

impl<'a> Model for PublishedList<'a> {
    ghost use Rattle.std.specs.Prelude.{List, ℕ, ◌++◌};
    ghost use Rattle.krl.specs.Format.{header_text};
    ghost use Rattle.krl.specs.Published.{published_header};
    ghost use Rattle.krl.specs.Contents.{KrlContents};
    ghost use Rattle.krl.specs.Fronts.{AreListed};

    ghost Value = { List ℕ };

    ghost view = { λ l. header_text (published_header l.head) ++ l.sections.now };

    ghost invariant = { λ l. (c : KrlContents) × AreListed l.head l.sections.now l.key_ids.now c };
}

impl<'a> PublishedList<'a> {
    ghost use Rattle.krl.specs.Contents.{are_cas_among};

    /// The version and the date.
    pub fn head(&self) -> KrlHead
        ensures published { IsPublished self.now }
        ensures head { (c : KrlContents) → Publishes self.now c → result ≡ c.head }
    {
        self.head
    }

    /// Whether each CA that has a section is one of these, given by the 32 bytes of their keys.
    pub fn has_only(&self, keys: &[[u8; 32]]) -> bool
        ensures { (c : KrlContents) → Publishes self.now c → result ≡ are_cas_among keys.now c }
    {
        are_among(self.sections, keys)
    }
}

// The data of the key ids of the first section; no data if there is no section.
fn first_key_ids(sections: &[u8]) -> Option<&[u8]>
    ensures none { sections.now ≡ [] → option_copied result ≡ Some [] }
    ensures only { (ids : List ℕ) (cas : List CaPart) → AreWhole sections.now ids cas → (cas ≡ [] → ids ≡ [])
        → option_copied result ≡ Some ids }
{
    if sections.is_empty() {
        return Some(sections);
    }
    let (key_ids, _) = whole_front(sections)?;
    Some(key_ids)
}

// Whether these are the sections of a published list with this key id data.
fn are_sections(sections: &[u8], key_ids: &[u8]) -> bool
    ensures { IsTrue result ↔ ((cas : List CaPart) × (ids : List (List ℕ))
        × AreSections sections.now key_ids.now cas ids) }
{
    are_whole(sections, key_ids) && are_distinct(sections) && are_key_ids(key_ids)
}

/// Reads a published list: what `write_krl` writes for at most eight different CAs and for key ids in ascending byte
/// order. The list's CAs are those that have a section. It returns `None` for any other bytes, including
/// OpenSSH lists that revoke the same in another form. The bytes are borrowed, and no memory is allocated.
pub fn read_published(bytes: &[u8]) -> Option<PublishedList<'_>>
    ensures found { IfSome result (λ l. l ≡ bytes.now) }
    ensures exact { IsSome result ↔ IsPublished bytes.now }
{
    let (head, sections) = head_front(bytes)?;
    let key_ids = first_key_ids(sections)?;
    if !are_sections(sections, key_ids) {
        return None;
    }
    Some(PublishedList {
        head,
        sections,
        key_ids,
    })
}

// Whether the serials of each old section are in the new section of the same CA.
fn keeps_sections(old: &[u8], new: &[u8]) -> bool
    ensures { (a b : List ℕ) (cas others : List CaPart) → AllByRecursion (IsWhole a) cas
        → AllByRecursion (IsWhole b) others → old.now ≡ flat_map (whole_text a) cas
        → new.now ≡ flat_map (whole_text b) others → IsTrue result ↔ ArePartsKept cas others }
{
    let mut left = old;
    while let Some((section, rest)) = section_front(left) {
        let Some(runs) = runs_of_ca(new, &section.ca) else {
            return false;
        };
        if !keeps_runs(section.runs, runs) {
            return false;
        }
        left = rest;
    }
    true
}

/// Whether the new list revokes each pair of CA and serial, and each pair of CA and key id, that the old one revokes.
/// Allocates no memory; the time grows with the lengths of both.
pub fn forgets_nothing(old: &PublishedList<'_>, new: &PublishedList<'_>) -> bool
    ensures { (o n : KrlContents) → Publishes old.now o → Publishes new.now n
        → IsTrue result ↔ ForgetsNothing (list_of o) (list_of n) }
{
    keeps_sections(old.sections, new.sections) && keeps_ids(old.key_ids, new.key_ids)
}
