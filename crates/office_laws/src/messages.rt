//! A theorem about the message in an arrival's bytes.

ghost use Rattle.std.specs.Prelude.{◌≡◌, ◌↔◌, List, ℕ, Some};
ghost use Rattle.message.specs.declared.kinds.Message.{Message};
ghost use Rattle.message.specs.Belonging.{BelongsTo};
ghost use Rattle.office.specs.Messages.{message_with_text};

/// The message that a history takes from an arrival's bytes is the valid one whose text they are. If they are the text
/// of none, it takes none.
pub fn an_arrival_brings_the_message_of_its_text()
    ensures { (bytes : List ℕ) (m : Message) → (message_with_text bytes ≡ Some m) ↔ BelongsTo bytes m }
{}
