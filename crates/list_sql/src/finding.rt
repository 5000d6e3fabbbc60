//! Finding whether a database is a list guard's, and which list the guard approved last.

ghost use Rattle.std.specs.Prelude.{◌≡◌, true, false, length, Err, option_copied};
ghost use Rattle.std.specs.List.{list_all, list_any};
ghost use Rattle.store_sql.specs.Honest.{On, Outlives, tables_of};
ghost use Rattle.store_sql.specs.Calls.{Never};
ghost use Rattle.rows.specs.Calls.{OnlyLooks};
ghost use Rattle.list_sql.specs.Look.{is_list_table};
ghost use Rattle.list_sql.specs.Opening.{FindsLast, IsUnlessRefused, SaysUnless};
ghost use Rattle.list_sql.specs.Opening.{has_id, has_schema, is_known, joined, last_in, listed, row_with};
ghost use Rattle.list_sql.specs.Rows.{list_in};

use crate::faults::opening_fault;
use crate::lists::{ListRow, every_list};
use crate::look::has_list;
use crate::opening_fault::OpeningFault;
use crate::pieces::SCHEMA;
use sqlite::{Alter, Connection};
use std::alloc::Global;
use text::Text;

/// The schema in which one row has the whole list. It is read, and no longer made.
const FIRST_SCHEMA: u64 = 1;

/// The list that these bytes are, or `None` if there is no byte.
fn list_in(bytes: Text) -> Option<Text>
    ensures { result ≡ list_in bytes }
{
    if bytes.as_slice().is_empty() {
        return None;
    }
    Some(bytes)
}

fn has_id(row: &ListRow, id: u64) -> bool
    ensures { result ≡ has_id id row.now }
{
    row.id.get() == id
}

/// The row with this id, if there is one.
fn row_with(rows: &[ListRow], id: u64) -> Option<&ListRow>
    ensures { option_copied result ≡ row_with rows.now id }
{
    rows.iter().find(|row| has_id(row, id))
}

/// The list whose pieces the rows have. `Damaged` if an id is missing.
fn list_of(alloc: Global, rows: &[ListRow]) -> Result<Option<Text>, OpeningFault>
    ensures { IsUnlessRefused (listed true (joined rows.now (length rows.now))) result }
{
    let mut bytes = Vec::new(alloc);
    for at in 0..rows.len() {
        let row = match row_with(rows, at as u64 + 1) {
            Some(row) => row,
            None => return Err(OpeningFault::Damaged),
        };
        match bytes.extend_from_slice(row.bytes.as_slice()) {
            Ok(()) => {}
            Err(_) => return Err(OpeningFault::NoMemory),
        }
    }
    Ok(list_in(Text::from_vec(bytes)))
}

fn has_schema(row: &ListRow, schema: u64) -> bool
    ensures { result ≡ has_schema schema row.now }
{
    row.schema.get() == schema
}

fn have_schema(rows: &[ListRow], schema: u64) -> bool
    ensures { result ≡ list_all (has_schema schema) rows.now }
{
    rows.iter().all(|row| has_schema(row, schema))
}

/// Whether all rows have this schema, or there is one row, of the first schema.
fn are_known(rows: &[ListRow]) -> bool
    ensures { result ≡ is_known rows.now }
{
    have_schema(rows, SCHEMA) || (rows.len() == 1 && have_schema(rows, FIRST_SCHEMA))
}

/// The list that the rows of the table represent.
fn last_in(alloc: Global, rows: &[ListRow]) -> Result<Option<Text>, OpeningFault>
    ensures { IsUnlessRefused (last_in rows.now) result }
{
    if rows.is_empty() {
        return Err(OpeningFault::NotAGuard);
    }
    if !are_known(rows) {
        return Err(OpeningFault::WrongSchema);
    }
    list_of(alloc, rows)
}

/// The list that was approved last by the list guard in a database.
pub(crate) fn find_last<S: Alter>(
    alloc: Global,
    conn: &mut Connection<S>,
) -> Result<Option<Text>, OpeningFault>
    ensures finds { On S.Store FindsLast conn.old conn.new result }
    ensures says { On S.Store SaysUnless conn.old conn.new result }
    ensures looks { On S.Store OnlyLooks conn.old conn.new result }
    ensures none { list_any is_list_table (tables_of S.Store conn.old) ≡ false
        → (result ≡ Err OpeningFault.NotAGuard) × (conn.new ≡ conn.old) }
    ensures survives { Outlives S.Store Never conn.old conn.new }
{
    if !has_list(conn) {
        return Err(OpeningFault::NotAGuard);
    }
    match every_list(alloc, conn) {
        Ok(rows) => last_in(alloc, rows.as_slice()),
        Err(fault) => Err(opening_fault(fault)),
    }
}
