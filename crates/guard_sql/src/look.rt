//! A look at the schema, before the tables are queried.

ghost use Rattle.std.specs.Prelude.{◌≡◌};
ghost use Rattle.std.specs.List.{list_any};
ghost use Rattle.guard_sql.specs.Look.{has_columns, is_guard_name, is_guard_table};
ghost use Rattle.store_sql.specs.Honest.{tables_of};

use rows::are_named;
use sqlite::{Alter, Connection};
use sqlite_schema::names::same_name;
use sqlite_schema::schema::Table;

fn has_guard_name(table: &Table) -> bool
    ensures { result ≡ is_guard_name table.now }
{
    let name = table.name.as_slice();
    same_name(name, b"guard") || same_name(name, b"approved")
}

/// Whether the database has a table with the name of one of a guard's.
pub(crate) fn has_any_table<S: Alter>(conn: &Connection<S>) -> bool
    ensures { result ≡ list_any is_guard_name (tables_of S.Store conn.now) }
{
    conn.schema().tables.as_slice().iter().any(has_guard_name)
}

fn has_guard_columns(table: &Table) -> bool
    ensures { result ≡ has_columns table.now }
{
    table.columns.len() == 5
        && are_named(
            table.columns.as_slice(),
            &["id", "schema", "ca", "first", "last"],
        )
}

fn is_guard(table: &Table) -> bool
    ensures { result ≡ is_guard_table table.now }
{
    same_name(table.name.as_slice(), b"guard") && has_guard_columns(table)
}

/// Whether the database has a guard's own table, with its columns.
pub(crate) fn has_guard<S: Alter>(conn: &Connection<S>) -> bool
    ensures { result ≡ list_any is_guard_table (tables_of S.Store conn.now) }
{
    conn.schema().tables.as_slice().iter().any(is_guard)
}
