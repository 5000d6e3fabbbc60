//! The kinds of values that a column may hold, and single columns of a row.

ghost use Rattle.std.specs.Prelude.{◌≡◌, ◌<◌, ◌^◌, pos};
ghost use Rattle.std.specs.List.{list_all, enumerate_from};
ghost use Rattle.sqlite_value.specs.Order.{column};
ghost use Rattle.sqlite_value.specs.Value.{owned};
ghost use Rattle.sqlite.specs.declared.types.Value.TheVariants.{Int};
ghost use Rattle.rows.specs.Granted.{IfGranted};
ghost use Rattle.rows.specs.Kinds.{holds, has_kinds, blob_in, number_in};

use crate::memory::Memory;
use sqlite::Row;
use sqlite::types::ValueRef;
use store_sql::Number;
use text::Text;

/// The kind of values that a column may hold.
#[derive(Clone, Copy)]
pub enum Kind {
    Number,
    Blob,
}

fn is_held(kind: Kind, row: &Row, at: usize) -> bool
    ensures { result ≡ holds kind (column row.now at) }
{
    match row.get_ref(at) {
        Ok(ValueRef::Int(number)) => matches!(kind, Kind::Number) && number >= 0,
        Ok(ValueRef::Blob(_)) => matches!(kind, Kind::Blob),
        _ => false,
    }
}

fn are_held(kinds: &[Kind], columns: &Row) -> bool
    ensures { result ≡ list_all (λ p. holds p.1 (column columns.now p.0)) (enumerate_from 0 kinds.now) }
{
    for at in 0..kinds.len() {
        if !is_held(kinds[at], columns, at) {
            return false;
        }
    }
    true
}

/// Whether the row has exactly columns of these kinds.
pub fn is_row_of(row: &Row, kinds: &[Kind]) -> bool
    ensures { result ≡ has_kinds kinds.now row.now }
{
    row.column_count() == kinds.len() && are_held(kinds, row)
}

/// The bytes in a column, or no byte if it holds none.
pub fn blob_at(memory: &mut Memory, row: &Row, at: usize) -> Text
    ensures { IfGranted memory.old memory.new (result ≡ blob_in (column row.now at)) }
{
    match row.get_ref(at) {
        Ok(ValueRef::Blob(bytes)) => memory.copied(bytes),
        _ => memory.copied(b""),
    }
}

/// The signed number as a number, or 0 if it is negative.
fn from_signed(value: i64) -> Number
    ensures { result ≡ number_in (Int value) }
{
    if value < 0 {
        return Number::ZERO;
    }
    match Number::new(value as u64) {
        Some(number) => number,
        None => Number::ZERO,
    }
}

/// The number in a column, or 0 if it holds none.
pub fn number_at(row: &Row, at: usize) -> Number
    ensures { result ≡ number_in (column row.now at) }
{
    match row.get_ref(at) {
        Ok(ValueRef::Int(number)) => from_signed(number),
        _ => Number::ZERO,
    }
}

/// The number as an SQL value.
pub fn value_of(number: Number) -> ValueRef<'static>
    ensures is { owned result ≡ Int (pos number) }
    ensures low { number < 2 ^ 63 }
{
    ValueRef::Int(number.get() as i64)
}
