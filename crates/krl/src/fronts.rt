//! Reads the item at the front of bytes, and the bytes after it.

ghost use Rattle.std.specs.Prelude.{◌≡◌, ◌++◌, ◌<◌, ◌^◌, ℕ, length, IfSome, option_copied};
ghost use Rattle.std.specs.Option.{option_map};
ghost use Rattle.wire.specs.Reading.{string_at, u64_at};
ghost use Rattle.wire.specs.Texts.{string_text, u64_text};
ghost use Rattle.krl.specs.Fronts.{behind_at, head_at};
ghost use Rattle.krl.specs.Format.{IsString, header_text};
ghost use Rattle.krl.specs.Published.{published_header};

use crate::field::is_same;
use crate::krl_head::KrlHead;
use wire::Cursor;

// The bytes after `front`, if they begin with it.
pub(crate) fn behind<'a>(bytes: &'a [u8], front: &[u8]) -> Option<&'a [u8]>
    ensures reads { option_copied result ≡ behind_at front.now bytes.now }
    ensures found { IfSome result (λ r. bytes.now ≡ front.now ++ r.now) }
{
    if bytes.len() < front.len() {
        return None;
    }
    let (start, rest) = bytes.split_at(front.len());
    if is_same(start, front) {
        Some(rest)
    } else {
        None
    }
}

// The 8-byte number at the front.
pub(crate) fn u64_front(bytes: &[u8]) -> Option<(u64, &[u8])>
    ensures reads { option_map (λ x. (x.0, x.1.now)) result ≡ u64_at bytes.now }
    ensures found { IfSome result (λ x. bytes.now ≡ u64_text x.0 ++ x.1.now) }
    ensures shorter { IfSome result (λ x. length x.1.now < length bytes.now) }
{
    let mut cursor = Cursor::new(bytes);
    let number = cursor.u64()?;
    Some((number, &bytes[8..]))
}

// The string at the front.
pub(crate) fn string_front(bytes: &[u8]) -> Option<(&[u8], &[u8])>
    ensures reads { option_map (λ x. (x.0.now, x.1.now)) result ≡ string_at bytes.now }
    ensures found { IfSome result (λ x. bytes.now ≡ string_text x.0.now ++ x.1.now) }
    ensures short { IfSome result (λ x. IsString x.0.now) }
    ensures shorter { IfSome result (λ x. length x.1.now < length bytes.now) }
{
    let mut cursor = Cursor::new(bytes);
    let string = cursor.string()?;
    Some((string, &bytes[4 + string.len()..]))
}

// The header of a published list: the format's version is 1, the flags are 0, and both strings are empty.
#[tactic(auto, unfolding(crate::specs::Fronts::head_at))]
pub(crate) fn head_front(bytes: &[u8]) -> Option<(KrlHead, &[u8])>
    ensures reads { option_map (λ x. (x.0, x.1.now)) result ≡ head_at bytes.now }
    ensures found { IfSome result (λ x. bytes.now ≡ header_text (published_header x.0) ++ x.1.now) }
    ensures version { IfSome result (λ x. x.0.version < 2 ^ 64) }
    ensures date { IfSome result (λ x. x.0.date < 2 ^ 64) }
{
    let begun = behind(bytes, b"SSHKRL\n\0\0\0\0\x01")?;
    let (version, rest) = u64_front(begun)?;
    let (date, rest) = u64_front(rest)?;
    let rest = behind(rest, &[0; 16])?;
    Some((KrlHead { version, date }, rest))
}
