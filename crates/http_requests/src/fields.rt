//! The values of header lines with one name.

ghost use Rattle.std.specs.Prelude.{◌≡◌, ℕ, ◌+◌, ◌≤◌, ◌<◌, List, [], ◌∷◌, ◌++◌, length};
ghost use Rattle.std.specs.Prelude.{min, All, IfSome, IfNone, OnSome, codes, nat_lt};
ghost use Rattle.std.specs.Str.{str_eq_ignore_ascii_case};
ghost use Rattle.std.specs.Str.Parse.{IsNumeral, digits_value};
ghost use Rattle.httparse.specs.Spans.{IsHeaderWithin};
ghost use Rattle.http_requests.specs.Heads.{AreLawfulLengths, States};
ghost use Rattle.http_requests.specs.FieldValues.{AreFound, covered};

use crate::limits::MAX_BODY;
use httparse::spans::HeaderSpan;

/// The values of the header lines with one name, as far as they matter.
#[derive(Clone, Copy, Drop)]
enum FieldValues<'a> {
    None,
    One(&'a [u8]),
    Several,
}

impl<'a> FieldValues<'a> {
    /// One more value.
    fn and(self, value: &'a [u8]) -> FieldValues<'a>
        ensures { (known : List (List ℕ)) → AreFound self.entry known → AreFound result (known ++ value.now ∷ []) }
    {
        match self {
            FieldValues::None => FieldValues::One(value),
            FieldValues::One(_) | FieldValues::Several => FieldValues::Several,
        }
    }
}

/// Whether two names are equal, ignoring ASCII case.
fn is_same_name(name: &[u8], other: &[u8]) -> bool
    ensures { result ≡ str_eq_ignore_ascii_case name.now other.now }
{
    name.eq_ignore_ascii_case(other)
}

/// The values of the lines with this name.
fn values_of<'a>(bytes: &'a [u8], headers: &[HeaderSpan], name: &[u8]) -> FieldValues<'a>
    requires { All (IsHeaderWithin (length bytes.now)) headers.now }
    ensures { AreFound result (covered name.now bytes.now headers.now) }
{
    let mut found = FieldValues::None;
    for header in headers {
        if is_same_name(header.name.of(bytes), name) {
            found = found.and(header.value.of(bytes));
        }
    }
    found
}

/// The number in these digits, or one over the limit of a body if it is larger.
fn capped(digits: &[u8]) -> Option<usize>
    ensures numeral { OnSome result (IsNumeral 10 digits.now) }
    ensures some { IfSome result (λ n. n ≡ min (MAX_BODY + 1) (digits_value 10 digits.now)) }
    ensures none { IfNone result (¬ (IsNumeral 10 digits.now)) }
{
    if digits.is_empty() {
        return None;
    }
    let mut n = 0;
    for digit in digits {
        if !digit.is_ascii_digit() {
            return None;
        }
        n = (n * 10 + usize::from(*digit - b'0')).min(MAX_BODY + 1);
    }
    Some(n)
}

/// The length that the lines state, if any, or `None` if they are invalid.
pub(crate) fn stated_length(bytes: &[u8], headers: &[HeaderSpan]) -> Option<Option<usize>>
    requires { All (IsHeaderWithin (length bytes.now)) headers.now }
    ensures lawful { OnSome result (AreLawfulLengths (covered (codes "content-length") bytes.now headers.now)) }
    ensures some { IfSome result (λ n. States n (covered (codes "content-length") bytes.now headers.now)) }
    ensures none { IfNone result (¬ (AreLawfulLengths (covered (codes "content-length") bytes.now headers.now))) }
{
    match values_of(bytes, headers, b"content-length") {
        FieldValues::None => Some(None),
        FieldValues::One(value) => match capped(value) {
            Some(n) => Some(Some(n)),
            None => None,
        },
        FieldValues::Several => None,
    }
}

/// Whether a line states a coding.
pub(crate) fn states_coding(bytes: &[u8], headers: &[HeaderSpan]) -> bool
    requires { All (IsHeaderWithin (length bytes.now)) headers.now }
    ensures { result ≡ nat_lt 0 (length (covered (codes "transfer-encoding") bytes.now headers.now)) }
{
    match values_of(bytes, headers, b"transfer-encoding") {
        FieldValues::None => false,
        FieldValues::One(_) | FieldValues::Several => true,
    }
}
