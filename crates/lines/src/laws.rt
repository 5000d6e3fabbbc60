//! Theorems about the definitions that the contracts cite, for every public-key line.

ghost use Rattle.std.specs.Prelude.{◌≡◌, ◌≢◌, ◌↔◌, List, ℕ, length, IsTrue, MatchResult};
ghost use Rattle.base64.specs.Engines.{standard};
ghost use Rattle.base64.specs.GeneralPurpose.{encode_of};
ghost use Rattle.text.specs.Bytes.{IsBytes};
ghost use Rattle.lines.specs.KeyLines.{is_base64_word, is_key_line, key_line_text};
ghost use Rattle.lines.specs.Reading.{IsLineFault, key_line_at};
ghost use Rattle.lines.specs.SubjectLines.{is_subject_line, subject_line_at, subject_line_text};
ghost use Rattle.lines.specs.declared.subject_line.SubjectLine.{SubjectLine};
ghost use Rattle.lines.specs.declared.key_line.KeyLine.{KeyLine};
ghost use Rattle.lines.specs.declared.key_line.LineFault.{LineFault};

/// The text of a valid line is read as that line, so no text belongs to two lines.
pub fn key_lines_are_read_again()
    ensures again { (k : KeyLine) → IsTrue (is_key_line k) → key_line_at (key_line_text k) ≡ Ok k }
    ensures unique { (a b : KeyLine) → IsTrue (is_key_line a) → IsTrue (is_key_line b)
        → key_line_text a ≡ key_line_text b → a ≡ b }
{}

/// Reading any bytes gives a valid line with that text, or a fault that is present; and a fault that is present is
/// reported.
pub fn key_lines_are_lawful_or_faulty()
    ensures says { (line : List ℕ) → IsBytes line
        → MatchResult (key_line_at line) (λ k. IsTrue (is_key_line k) × (line ≡ key_line_text k)) (IsLineFault line) }
    ensures faults { (line : List ℕ) (e : LineFault) → IsBytes line → e ≢ LineFault.NoMemory → IsLineFault line e
        → key_line_at line ≡ Err e }
{}

/// The same of lines of all types: the text of a valid one is read as it, so no text belongs to two.
pub fn subject_lines_are_read_again()
    ensures again { (k : SubjectLine) → IsTrue (is_subject_line k) → subject_line_at (subject_line_text k) ≡ Some k }
    ensures unique { (a b : SubjectLine) → IsTrue (is_subject_line a) → IsTrue (is_subject_line b)
        → subject_line_text a ≡ subject_line_text b → a ≡ b }
{}

/// A word is the base64 of 51 bytes exactly when it is 68 characters of the standard alphabet.
pub fn base64_words_are_blobs()
    ensures { (word : List ℕ) → IsBytes word → IsTrue (is_base64_word word)
        ↔ ((blob : List ℕ) × IsBytes blob × (length blob ≡ 51) × (word ≡ encode_of standard blob)) }
{}
