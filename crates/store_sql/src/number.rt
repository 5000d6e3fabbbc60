//! Numbers that an INTEGER column holds.

ghost use Rattle.std.specs.Prelude.{◌≡◌, ◌<◌, ◌^◌, ◌↔◌, IsSome, IfSome, pos};
ghost use Rattle.sqlite_value.specs.Value.{owned};
ghost use Rattle.sqlite.specs.declared.types.Value.TheVariants.{Int};

use sqlite::types::ValueRef;
use std::marker::Model;

/// A number below 2^63, which an INTEGER column can hold. Contracts see it as that number.
#[derive(Clone, Copy)]
pub struct Number {
    value: u64,
}

impl Model for Number {
    ghost use Rattle.std.specs.Prelude.{ℕ, ◌<◌, ◌^◌};

    ghost Value = { ℕ };

    ghost view = { λ n. n.value };

    ghost invariant = { λ n. n.value < 2 ^ 63 };

    ghost inverse = { λ n. record { value = n } };
}

impl Number {
    ghost use Rattle.store_sql.specs.Kinds.{number_in};

    /// The number 0.
    pub const ZERO: Number = Number { value: 0 };

    /// The number, or `None` if it is 2^63 or more.
    pub fn new(value: u64) -> Option<Number>
        ensures fits { IsSome result ↔ (value < 2 ^ 63) }
        ensures value { IfSome result (λ n. n ≡ value) }
    {
        if value <= i64::MAX as u64 {
            Some(Number { value })
        } else {
            None
        }
    }

    /// A signed number as an unsigned one, or 0 if it is negative.
    pub(crate) fn from_signed(value: i64) -> Number
        ensures { result ≡ number_in (Int value) }
    {
        if value < 0 {
            Number { value: 0 }
        } else {
            Number {
                value: value as u64,
            }
        }
    }

    /// The number as a value of SQL.
    pub(crate) fn value(self) -> ValueRef<'static>
        ensures is { owned result ≡ Int (pos self) }
        ensures low { self < 2 ^ 63 }
    {
        ValueRef::Int(self.value as i64)
    }

    /// The number.
    pub fn get(self) -> u64
        ensures value { result ≡ self }
        ensures low { result < 2 ^ 63 }
    {
        self.value
    }
}
