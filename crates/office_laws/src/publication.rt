//! Theorems about the published list (the KRL).

ghost use Rattle.std.specs.Prelude.{◌≡◌, ◌++◌, List, ℕ, Some, IsTrue, slice_get, true};
ghost use Rattle.lines.specs.Keys.{key_blob};
ghost use Rattle.krl.specs.Format.{RevocationList, revokes};
ghost use Rattle.krl.specs.Published.{fits};
ghost use Rattle.office.specs.declared.opening.Opening.{Opening};
ghost use Rattle.office.specs.declared.arrival.Arrival.{Arrival};
ghost use Rattle.office.specs.declared.ca.Ca.{Ca};
ghost use Rattle.office.specs.Publication.{published_list, published_parts};
ghost use Rattle.office.specs.History.{state};
ghost use Rattle.office.specs.Shows.{IsOffice};
ghost use Rattle.office_laws.specs.Lists.{AreExactList, IsExact};

/// The bytes of the published list parse in exactly one way, if each section's length fits in 32 bits. The list revokes
/// a certificate exactly when its key ID was named, or its serial was named and the CA is the one that signs it.
pub fn the_list_is_exact()
    ensures { (o : Opening) (l : List Arrival) → IsOffice o l → IsTrue (fits (published_parts (state o l))
        (state o l).revoked_key_ids) → AreExactList (published_list (state o l)) o l }
{}

/// A later list revokes, under each CA that the office had at the earlier list, everything that the earlier list does.
pub fn a_later_list_revokes_as_much()
    ensures { (o : Opening) (l later : List Arrival) (old new : RevocationList) → IsExact o l old
        → IsExact o (l ++ later) new → (place : ℕ) (ca : Ca) → slice_get (state o l).cas place ≡ Some ca
        → (serial : ℕ) (key_id : List ℕ) → revokes (key_blob ca.key) serial key_id old ≡ true
        → revokes (key_blob ca.key) serial key_id new ≡ true }
{}

/// While the version stays the same, so does the published list, byte for byte, whatever requests come in between.
pub fn equal_versions_are_equal_lists()
    ensures { (o : Opening) (l later : List Arrival) → (state o l).version ≡ (state o (l ++ later)).version →
        published_list (state o l) ≡ published_list (state o (l ++ later)) }
{}
