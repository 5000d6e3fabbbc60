//! Conversion of rows to the office's values.

ghost use Rattle.store.specs.Reading.{IsRead, each, vec_of};

use std::alloc::Global;
use store_sql::Fault;

/// A value that a row represents.
pub(crate) trait OfRow<R>: Sized + Drop {
    ghost use Rattle.std.specs.Prelude.{Option};

    // The value of a row, if it has one.
    ghost value: { R → Option Self };

    fn of_row(alloc: Global, row: &R) -> Result<Self, Fault>
        ensures { IsRead (value row.now) result };
}

/// The value of each row.
pub(crate) fn read_each<R, T: OfRow<R>>(alloc: Global, rows: &[R]) -> Result<Vec<T>, Fault>
    ensures { IsRead (each T.value rows.now) (vec_of result) }
{
    let mut values = match Vec::with_capacity(alloc, rows.len()) {
        Ok(values) => values,
        Err(_) => return Err(Fault::NoMemory),
    };
    for row in rows {
        let value = match T::of_row(alloc, row) {
            Ok(value) => value,
            Err(fault) => return Err(fault),
        };
        if values.push(value).is_err() {
            return Err(Fault::NoMemory);
        }
    }
    Ok(values)
}
