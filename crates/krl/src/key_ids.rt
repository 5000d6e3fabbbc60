//! Goes through the key ids of a published list.

ghost use Rattle.std.specs.Prelude.{◌≡◌, ◌↔◌, [], ◌∷◌, List, ℕ, IsTrue, option_copied, true};
ghost use Rattle.krl.specs.Published.{is_listed_key_id};
ghost use Rattle.krl.specs.Fronts.{AreIds, AscendNext};

use crate::fronts::string_front;
use std::cmp::Ordering;

// Whether the key id comes after the last one, if there is one.
fn comes_behind(last: Option<&[u8]>, id: &[u8]) -> bool
    ensures { IsTrue result ↔ AscendNext (option_copied last.entry) (id.now ∷ []) }
{
    match last {
        None => true,
        Some(last) => last.cmp(id) == Ordering::Less,
    }
}

// Whether the bytes are ascending key ids, each with its length.
pub(crate) fn are_key_ids(bytes: &[u8]) -> bool
    ensures { IsTrue result ↔ ((ids : List (List ℕ)) × AreIds bytes.now ids) }
{
    let mut left = bytes;
    let mut last = None;
    while !left.is_empty() {
        let Some((id, rest)) = string_front(left) else {
            return false;
        };
        if !comes_behind(last, id) {
            return false;
        }
        last = Some(id);
        left = rest;
    }
    true
}

// Whether each of the old key ids is one of the new ones.
pub(crate) fn keeps_ids(old: &[u8], new: &[u8]) -> bool
    ensures { (ids others : List (List ℕ)) → AreIds old.now ids → AreIds new.now others
        → IsTrue result ↔ ((i : List ℕ) → is_listed_key_id ids i ≡ true → is_listed_key_id others i ≡ true) }
{
    let mut wanted = old;
    let mut left = new;
    while let Some((id, rest)) = string_front(wanted) {
        let Some((other, others)) = string_front(left) else {
            return false;
        };
        match other.cmp(id) {
            Ordering::Less => left = others,
            Ordering::Equal => wanted = rest,
            Ordering::Greater => return false,
        }
    }
    true
}
