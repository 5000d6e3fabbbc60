//! Theorems about every state and every history.

ghost use Rattle.std.specs.Prelude.{◌≡◌, ℕ, List, true};
ghost use Rattle.values.specs.declared.limits.TheConstants.{LAST_SERIAL, LATEST_MOMENT};
ghost use Rattle.message.specs.declared.kinds.Message.{Message};
ghost use Rattle.office.specs.declared.arrival.TheConstants.{MAX_REPLY};
ghost use Rattle.office.specs.declared.ca.TheConstants.{MOST_CAS};
ghost use Rattle.office.specs.declared.opening.Opening.{Opening};
ghost use Rattle.office.specs.declared.arrival.Arrival.{Arrival};
ghost use Rattle.office.specs.State.{State};
ghost use Rattle.office.specs.Refusals.{refusals};
ghost use Rattle.office.specs.History.{due};
ghost use Rattle.office.specs.Shows.{IsOffice};
ghost use Rattle.office.specs.Laws.{ReplyFits, ascend_from};

/// For every message, its refusals are listed in ascending order of their numbers, from 10 on: so the first that
/// applies is the one with the least number.
pub fn refusals_ascend()
    ensures { (s : State) (caller : List ℕ) (m : Message) (moment : ℕ)
        → ascend_from 10 (refusals s caller m moment) ≡ true }
{}

/// Each specified reply, including a stored one, has at most 99 bytes.
pub fn replies_are_short()
    ensures { (o : Opening) (l : List Arrival) (a : Arrival) → IsOffice o l → ReplyFits 99 (due o l a) }
{}

/// The limits of an office, which the definitions write as numbers.
pub fn limits_of_offices()
    ensures moment { LATEST_MOMENT ≡ 253402300799 }
    ensures serial { LAST_SERIAL ≡ 9223372036854775806 }
    ensures cas { MOST_CAS ≡ 8 }
    ensures reply { MAX_REPLY ≡ 99 }
{}
