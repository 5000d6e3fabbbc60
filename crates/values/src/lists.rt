//! Lists without duplicates.

ghost use Rattle.std.specs.Prelude.{◌≡◌};
ghost use Rattle.std.specs.List.{list_any};
ghost use Rattle.std.specs.Str.{bytes_eq};
ghost use Rattle.values.specs.Lists.{are_distinct};

use text::Text;

/// Whether one of the texts has these bytes.
pub fn is_member(bytes: &[u8], texts: &[Text]) -> bool
    ensures { result ≡ list_any (λ t. bytes_eq t bytes.now) texts.now }
{
    texts.iter().any(|t| t.is(bytes))
}

/// Whether no text occurs twice.
pub fn are_distinct(texts: &[Text]) -> bool
    ensures { result ≡ are_distinct texts.now }
{
    let mut rest = texts;
    while let [first, tail @ ..] = rest {
        if is_member(first.as_slice(), tail) {
            return false;
        }
        rest = tail;
    }
    true
}
