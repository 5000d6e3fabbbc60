//! Fields of the list's binary form.

ghost use Rattle.std.specs.Prelude.{◌≡◌, ◌≢◌, ◌++◌, List, ℕ, IfSome, IfNone};
ghost use Rattle.std.specs.Str.{bytes_eq};
ghost use Rattle.wire.specs.Texts.{string_text};
ghost use Rattle.krl.specs.Format.{IsString, tagged_text};
ghost use Rattle.krl.specs.Faults.{HasString, Tagged, text_of};
ghost use Rattle.text.specs.Bytes.{IsBytes};

use wire::Cursor;

pub(crate) fn is_same(a: &[u8], b: &[u8]) -> bool
    ensures { result ≡ bytes_eq a.now b.now }
{
    a == b
}

// The next string.
pub(crate) fn next_string<'a>(cursor: &mut Cursor<'a>) -> Option<&'a [u8]>
    requires { IsBytes cursor.old }
    ensures found { IfSome result (λ b. IsString b.now × (cursor.old ≡ string_text b.now ++ cursor.new)) }
    ensures cut { IfNone result ((b rest : List ℕ) → IsString b → cursor.old ≢ string_text b ++ rest) }
{
    cursor.string()
}

// The next byte and string, of a section or a part.
pub(crate) fn next_tagged<'a>(cursor: &mut Cursor<'a>) -> Option<(u8, &'a [u8])>
    requires { IsBytes cursor.old }
    ensures found { IfSome result (λ x. IsString x.1.now × (cursor.old ≡ tagged_text x.0 x.1.now ++ cursor.new)) }
    ensures cut { IfNone result ((x : Tagged) (rest : List ℕ) → HasString x → cursor.old ≢ text_of x ++ rest) }
{
    let Some(kind) = cursor.u8() else {
        return None;
    };
    let Some(data) = next_string(cursor) else {
        return None;
    };
    Some((kind, data))
}
