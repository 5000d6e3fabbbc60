//! Numbers of the office as numbers in a column.

ghost use Rattle.std.specs.Prelude.{◌≡◌, ◌<◌, ◌^◌};

use store_sql::Number;

/// The number as a column holds it. It must be below 2^63, as serials, versions and times are.
pub fn number(value: u64) -> Number
    requires { value < 2 ^ 63 }
    ensures { result ≡ value }
{
    let Some(number) = Number::new(value) else {
        unreachable!();
    };
    number
}
