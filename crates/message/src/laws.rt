//! Theorems about the texts of messages. The functions do nothing: their contracts are the theorems.

ghost use Rattle.std.specs.Prelude.{◌≡◌, ◌↔◌, ℕ, List, IsTrue, Err, Some};
ghost use Rattle.text.specs.Bytes.{IsBytes};
ghost use Rattle.message.specs.Belonging.{BelongsTo};
ghost use Rattle.message.specs.Faults.{IsFirstBad};
ghost use Rattle.message.specs.Reading.{message_at, message_of};
ghost use Rattle.message.specs.Texts.{message_text};
ghost use Rattle.message.specs.Values.{is_message};
ghost use Rattle.message.specs.declared.kinds.Message.{Message};

/// Reading finds a message exactly when the message is valid and the bytes, numbers below 256, are its text.
pub fn reading_finds_the_message_of_a_text()
    ensures { (bytes : List ℕ) (m : Message) → IsBytes bytes → (message_of bytes ≡ Some m) ↔ BelongsTo bytes m }
{}

/// A text belongs to at most one message.
pub fn a_text_belongs_to_one_message()
    ensures { (a b : Message) → IsTrue (is_message a) → IsTrue (is_message b)
        → message_text a ≡ message_text b → a ≡ b }
{}

/// The line that reading reports is the first that fits no message: the bytes are no message's text, the lines before
/// it begin one, and with it they begin none.
pub fn the_first_bad_line_is_named()
    ensures { (bytes : List ℕ) (n : ℕ) → IsBytes bytes → (message_at bytes ≡ Err n) ↔ IsFirstBad bytes n }
{}
