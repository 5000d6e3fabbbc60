//! Theorems about revocations.

ghost use Rattle.std.specs.Prelude.{◌≡◌, ◌++◌, List, ℕ, true};
ghost use Rattle.office.specs.declared.opening.Opening.{Opening};
ghost use Rattle.office.specs.declared.arrival.Arrival.{Arrival};
ghost use Rattle.office.specs.State.{is_key_id_revoked};
ghost use Rattle.office.specs.History.{state};
ghost use Rattle.office_laws.specs.Named.{is_serial_named, is_key_id_named};

/// Exactly the serials and the key IDs that accepted messages named are revoked.
pub fn revoked_is_what_was_named()
    ensures serials { (o : Opening) (l : List Arrival) (serial : ℕ)
        → (state o l).revoked serial ≡ is_serial_named o l serial }
    ensures key_ids { (o : Opening) (l : List Arrival) (key_id : List ℕ)
        → is_key_id_revoked (state o l) key_id ≡ is_key_id_named o l key_id }
{}

/// A revoked serial or key ID stays revoked, whatever requests come later.
pub fn nothing_is_forgotten()
    ensures serials { (o : Opening) (l later : List Arrival) (serial : ℕ)
        → (state o l).revoked serial ≡ true → (state o (l ++ later)).revoked serial ≡ true }
    ensures key_ids { (o : Opening) (l later : List Arrival) (key_id : List ℕ)
        → is_key_id_revoked (state o l) key_id ≡ true → is_key_id_revoked (state o (l ++ later)) key_id ≡ true }
{}
