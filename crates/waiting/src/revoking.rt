//! The revocations, remembered across messages.

ghost use Rattle.std.specs.Prelude.{◌≡◌, ◌++◌, [], ◌∷◌, List, Some, false};
ghost use Rattle.message.specs.declared.kinds.Message.{Message};
ghost use Rattle.office.specs.declared.opening.Opening.{Opening};
ghost use Rattle.office.specs.declared.arrival.Arrival.{Arrival};
ghost use Rattle.office.specs.History.{state};
ghost use Rattle.office.specs.Messages.{message_with_text};
ghost use Rattle.office.specs.State.{State};
ghost use Rattle.waiting.specs.Knowing.{IsKept, is_revocation};

use office::Revocations;

// Whether the bytes may be those of a message that revokes. No other message begins like this.
fn may_revoke(bytes: &[u8]) -> bool
    ensures { result ≡ false → (m : Message) → message_with_text bytes.now ≡ Some m → is_revocation m ≡ false }
{
    bytes.starts_with(b"revoke-")
}

/// Forgets the revocations, if the bytes of a received request may be those of a message that revokes.
pub(crate) fn forget_before(bytes: &[u8], revoked: &mut Option<Revocations>)
    // Revocations still remembered hold for every state for which they held, and after the request.
    ensures before { (s : State) → IsKept revoked.old s → IsKept revoked.new s }
    ensures after { (o : Opening) (l : List Arrival) (a : Arrival) → a.bytes ≡ bytes.now
        → IsKept revoked.old (state o l) → IsKept revoked.new (state o (l ++ a ∷ [])) }
{
    if may_revoke(bytes) {
        *revoked = None;
    }
}
