//! Rows as structs of their columns.

ghost use Rattle.std.specs.Prelude.{◌≡◌, ◌≢◌, List, Bool, true, false, map, IfOk, IfErr};
ghost use Rattle.sqlite_value.specs.Order.{Row as SqlRow};
ghost use Rattle.store_sql.specs.Faults.{Misread};
ghost use Rattle.store_sql.specs.Done.{IsFirst, IsEachRead, IsFirstRead};

use crate::memory::Memory;
use sqlite::{Error, Row};
use std::alloc::Global;
use store_sql::Fault;

/// A struct of the columns of a row.
pub trait Columns: Sized + Drop {
    /// The row of these columns.
    ghost cells: { Self → SqlRow };

    /// Whether a row has these columns.
    ghost is_row: { SqlRow → Bool };

    fn is_row(row: &Row) -> bool
        ensures { result ≡ is_row row.now };

    fn copied_from(memory: &mut Memory, row: &Row) -> Self
        ensures { memory.new.is_refused ≡ false → is_row row.now ≡ true → row.now ≡ cells result };

    ghost fits: { (x : Self) → is_row (cells x) ≡ true };
}

/// The columns of one row.
pub fn read<T: Columns>(alloc: Global, row: &Row) -> Result<T, Fault>
    ensures ok { IfOk result (λ x. row.now ≡ T.cells x) }
    ensures err { IfErr result (Misread ((x : T) → row.now ≢ T.cells x)) }
{
    if !T::is_row(row) {
        return Err(Fault::Damaged);
    }
    let mut memory = Memory::new(alloc);
    let columns = T::copied_from(&mut memory, row);
    if memory.is_refused() {
        return Err(Fault::NoMemory);
    }
    Ok(columns)
}

/// The columns of each row.
pub fn read_all<T: Columns>(alloc: Global, rows: &[Row]) -> Result<Vec<T>, Fault>
    ensures ok { IfOk result (λ all. rows.now ≡ map T.cells all.items) }
    ensures err { IfErr result (Misread ((all : List T) → rows.now ≢ map T.cells all)) }
{
    let mut all = match Vec::with_capacity(alloc, rows.len()) {
        Ok(all) => all,
        Err(_) => return Err(Fault::NoMemory),
    };
    for row in rows {
        let columns = match read(alloc, row) {
            Ok(columns) => columns,
            Err(fault) => return Err(fault),
        };
        match all.push(columns) {
            Ok(()) => {}
            Err(_) => return Err(Fault::NoMemory),
        }
    }
    Ok(all)
}

/// The columns of the first row, if there is one.
pub fn read_first<T: Columns>(alloc: Global, rows: &[Row]) -> Result<Option<T>, Fault>
    ensures ok { IfOk result (IsFirst T.cells rows.now) }
    ensures err { IfErr result (Misread ((all : List T) → rows.now ≢ map T.cells all)) }
{
    match rows {
        [] => Ok(None),
        [first, ..] => Ok(Some(read(alloc, first)?)),
    }
}

/// The rows that a query finds, as structs.
pub fn found<T: Columns>(alloc: Global, answer: Result<Vec<Row>, Error>) -> Result<Vec<T>, Fault>
    ensures { IsEachRead T.cells answer result }
{
    match answer {
        Ok(rows) => read_all(alloc, rows.as_slice()),
        Err(error) => Err(Fault::from(error)),
    }
}

/// The first row that a query finds, as a struct.
pub fn found_first<T: Columns>(
    alloc: Global,
    answer: Result<Vec<Row>, Error>,
) -> Result<Option<T>, Fault>
    ensures { IsFirstRead T.cells answer result }
{
    match answer {
        Ok(rows) => read_first(alloc, rows.as_slice()),
        Err(error) => Err(Fault::from(error)),
    }
}
