//! Numbers in decimal.

ghost use Rattle.std.specs.Prelude.{◌≡◌, ◌≢◌, ◌<◌, ◌^◌, ◌++◌, ℕ, true, decimal, OnOk, OnErr, IfSome, IfNone};
ghost use Rattle.std.specs.Char.{is_ascii_digit};
ghost use Rattle.std.specs.List.{list_all};
ghost use Rattle.values.specs.Decimals.{is_numeral, number_of};

use itoa::Buffer;
use std::str::from_utf8;
use text::NoMemory;

fn has_digits(text: &[u8]) -> bool
    ensures { result ≡ list_all is_ascii_digit text.now }
{
    text.iter().all(|b| b.is_ascii_digit())
}

fn is_numeral(text: &[u8]) -> bool
    ensures { result ≡ is_numeral text.now }
{
    match text {
        [digit, rest @ ..] => has_digits(text) && (*digit != b'0' || rest.is_empty()),
        [] => false,
    }
}

fn numeral_value(text: &[u8]) -> Option<u64>
    requires { is_numeral text.now ≡ true }
    ensures { result ≡ number_of text.now }
{
    let Ok(digits) = from_utf8(text) else {
        return None;
    };
    digits.parse::<u64>().ok()
}

/// The number that the text represents in decimal, without sign or leading zeros. `None` for any other text, and for
/// numbers over 18446744073709551615.
pub fn read_decimal(text: &[u8]) -> Option<u64>
    ensures value { result ≡ number_of text.now }
    ensures found { IfSome result (λ n. text.now ≡ decimal n) }
    ensures only { IfNone result ((n : ℕ) → n < 2 ^ 64 → text.now ≢ decimal n) }
{
    if is_numeral(text) {
        numeral_value(text)
    } else {
        None
    }
}

/// Appends the number in decimal, without leading zeros, to `out`.
///
/// # Errors
///
/// `NoMemory`, if an allocation was refused. `out` is unchanged.
pub fn put_decimal(out: &mut Vec<u8>, number: u64) -> Result<(), NoMemory>
    ensures ok { OnOk result (out.new.items ≡ out.old.items ++ decimal number) }
    ensures err { OnErr result (out.new.items ≡ out.old.items) }
{
    let mut buffer = Buffer::new();
    out.extend_from_slice(buffer.format(number).as_bytes())?;
    Ok(())
}
