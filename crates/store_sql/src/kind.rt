//! The kinds of columns, and single columns of a row.

ghost use Rattle.std.specs.Prelude.{◌≡◌};
ghost use Rattle.std.specs.List.{list_all, enumerate_from};
ghost use Rattle.sqlite_value.specs.Order.{column};
ghost use Rattle.sqlite_value.specs.Value.{owned};
ghost use Rattle.sqlite.specs.Values.{or_null};
ghost use Rattle.sqlite.specs.declared.types.Value.TheVariants.{Blob};
ghost use Rattle.store_sql.specs.Granted.{IfGranted};
ghost use Rattle.store_sql.specs.Kinds.{holds, has_kinds, text_in, blob_in, optional_blob_in, number_in};

use crate::memory::Memory;
use crate::number::Number;
use sqlite::Row;
use sqlite::types::ValueRef;
use text::Text;

/// The values that a column may hold.
#[derive(Clone, Copy)]
pub(crate) enum Kind {
    Number,
    Text,
    Blob,
    OptionalBlob,
}

fn is_held(kind: Kind, row: &Row, at: usize) -> bool
    ensures { result ≡ holds kind (column row.now at) }
{
    match row.get_ref(at) {
        Ok(ValueRef::Int(number)) => matches!(kind, Kind::Number) && number >= 0,
        Ok(ValueRef::Text(_)) => matches!(kind, Kind::Text),
        Ok(ValueRef::Blob(_)) => matches!(kind, Kind::Blob | Kind::OptionalBlob),
        Ok(ValueRef::Null) | Err(_) => matches!(kind, Kind::OptionalBlob),
        Ok(ValueRef::Real(_)) => false,
    }
}

fn are_held(kinds: &[Kind], columns: &Row) -> bool
    ensures { result ≡ list_all (λ p. holds p.1 (column columns.now p.0)) (enumerate_from 0 kinds.now) }
{
    for at in 0..kinds.len() {
        if !is_held(kinds[at], columns, at) {
            return false;
        }
    }
    true
}

/// Whether the row has exactly these columns, each with a value of its kind.
pub(crate) fn is_row_of(row: &Row, kinds: &[Kind]) -> bool
    ensures { result ≡ has_kinds kinds.now row.now }
{
    row.column_count() == kinds.len() && are_held(kinds, row)
}

/// The text in a column, or an empty one if there is none.
pub(crate) fn text_at(memory: &mut Memory, row: &Row, at: usize) -> Text
    ensures { IfGranted memory.old memory.new (result ≡ text_in (column row.now at)) }
{
    match row.get_ref(at) {
        Ok(ValueRef::Text(bytes)) => memory.copied(bytes),
        _ => memory.copied(b""),
    }
}

/// The bytes in a column, or none if it has no bytes.
pub(crate) fn blob_at(memory: &mut Memory, row: &Row, at: usize) -> Text
    ensures { IfGranted memory.old memory.new (result ≡ blob_in (column row.now at)) }
{
    match row.get_ref(at) {
        Ok(ValueRef::Blob(bytes)) => memory.copied(bytes),
        _ => memory.copied(b""),
    }
}

/// The bytes in a column that may be NULL.
pub(crate) fn optional_blob_at(memory: &mut Memory, row: &Row, at: usize) -> Option<Text>
    ensures { IfGranted memory.old memory.new (result ≡ optional_blob_in (column row.now at)) }
{
    match row.get_ref(at) {
        Ok(ValueRef::Blob(bytes)) => Some(memory.copied(bytes)),
        _ => None,
    }
}

/// The number in a column, or 0 if there is none.
pub(crate) fn number_at(row: &Row, at: usize) -> Number
    ensures { result ≡ number_in (column row.now at) }
{
    match row.get_ref(at) {
        Ok(ValueRef::Int(number)) => Number::from_signed(number),
        _ => Number::ZERO,
    }
}

/// The bytes as a value of SQL, NULL if there are none.
pub(crate) fn optional_blob(blob: &Option<Text>) -> ValueRef<'_>
    ensures { owned result ≡ or_null Blob blob.now }
{
    match blob {
        Some(bytes) => ValueRef::Blob(bytes.as_slice()),
        None => ValueRef::Null,
    }
}
