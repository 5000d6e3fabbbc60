//! Serials.

ghost use Rattle.std.specs.Prelude.{◌≡◌};
ghost use Rattle.values.specs.Serials.{are_serials, is_serial};

use crate::limits::LAST_SERIAL;

/// Whether the number is a serial that may be issued: from 1 to `LAST_SERIAL`.
pub fn is_serial(number: u64) -> bool
    ensures { result ≡ is_serial number }
{
    1 <= number && number <= LAST_SERIAL
}

/// Whether a range of serials may be issued: 1 <= first <= last <= `LAST_SERIAL`.
pub fn are_serials(first: u64, last: u64) -> bool
    ensures { result ≡ are_serials first last }
{
    1 <= first && first <= last && last <= LAST_SERIAL
}
