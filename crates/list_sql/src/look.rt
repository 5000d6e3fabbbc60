//! Looking at the schema, before the table is queried.

ghost use Rattle.std.specs.Prelude.{◌≡◌};
ghost use Rattle.std.specs.List.{list_any};
ghost use Rattle.list_sql.specs.Look.{has_columns, is_list_name, is_list_table};
ghost use Rattle.store_sql.specs.Honest.{tables_of};

use rows::are_named;
use sqlite::{Alter, Connection};
use sqlite_schema::names::same_name;
use sqlite_schema::schema::Table;

fn has_list_name(table: &Table) -> bool
    ensures { result ≡ is_list_name table.now }
{
    same_name(table.name.as_slice(), b"list")
}

/// Whether the database has a table with the name of the list's table.
pub(crate) fn has_any_table<S: Alter>(conn: &Connection<S>) -> bool
    ensures { result ≡ list_any is_list_name (tables_of S.Store conn.now) }
{
    conn.schema().tables.as_slice().iter().any(has_list_name)
}

fn has_list_columns(table: &Table) -> bool
    ensures { result ≡ has_columns table.now }
{
    table.columns.len() == 3 && are_named(table.columns.as_slice(), &["id", "schema", "bytes"])
}

fn is_list(table: &Table) -> bool
    ensures { result ≡ is_list_table table.now }
{
    has_list_name(table) && has_list_columns(table)
}

/// Whether the database has the table of the list, with its columns.
pub(crate) fn has_list<S: Alter>(conn: &Connection<S>) -> bool
    ensures { result ≡ list_any is_list_table (tables_of S.Store conn.now) }
{
    conn.schema().tables.as_slice().iter().any(is_list)
}
