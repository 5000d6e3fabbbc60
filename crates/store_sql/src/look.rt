//! Looking at the schema, before any query of the tables.

ghost use Rattle.std.specs.Prelude.{◌≡◌, length};
ghost use Rattle.std.specs.Str.{bytes_eq};
ghost use Rattle.std.specs.List.{list_any, list_all, zip};
ghost use Rattle.store_sql.specs.Look.{has_columns, is_ca_name, is_office_name, is_office_table};
ghost use Rattle.store_sql.specs.Honest.{tables_of};

use sqlite::{Alter, Connection};
use sqlite_schema::names::same_name;
use sqlite_schema::schema::{Column, Table};

fn has_office_name(table: &Table) -> bool
    ensures { result ≡ is_office_name table.now }
{
    let name = table.name.as_slice();
    same_name(name, b"office")
        || same_name(name, b"department")
        || same_name(name, b"cert")
        || same_name(name, b"request")
        || same_name(name, b"run")
        || same_name(name, b"revoked_keyid")
        || same_name(name, b"ca")
}

/// Whether the database has a table with the name of one of the office's.
pub fn has_any_table<S: Alter>(conn: &Connection<S>) -> bool
    ensures { result ≡ list_any is_office_name (tables_of S.Store conn.now) }
{
    conn.schema().tables.as_slice().iter().any(has_office_name)
}

fn are_named(columns: &[Column], names: &[&str]) -> bool
    requires { length columns.now ≡ length names.now }
    ensures { result ≡ list_all (λ p. bytes_eq p.0.name p.1.now) (zip columns.now names.now) }
{
    for at in 0..names.len() {
        if columns[at].name.as_slice() != names[at].as_bytes() {
            return false;
        }
    }
    true
}

fn has_office_columns(table: &Table) -> bool
    ensures { result ≡ has_columns table.now }
{
    table.columns.len() == 10
        && are_named(
            table.columns.as_slice(),
            &[
                "id", "schema", "ca", "root", "station", "first", "last", "next", "version", "date",
            ],
        )
}

fn is_office(table: &Table) -> bool
    ensures { result ≡ is_office_table table.now }
{
    same_name(table.name.as_slice(), b"office") && has_office_columns(table)
}

/// Whether the database has the `office` table, with its columns.
pub fn has_office<S: Alter>(conn: &Connection<S>) -> bool
    ensures { result ≡ list_any is_office_table (tables_of S.Store conn.now) }
{
    conn.schema().tables.as_slice().iter().any(is_office)
}

fn has_ca_name(table: &Table) -> bool
    ensures { result ≡ is_ca_name table.now }
{
    same_name(table.name.as_slice(), b"ca")
}

/// Whether the database has a table with the name of the table of CAs.
pub fn has_ca_table<S: Alter>(conn: &Connection<S>) -> bool
    ensures { result ≡ list_any is_ca_name (tables_of S.Store conn.now) }
{
    conn.schema().tables.as_slice().iter().any(has_ca_name)
}
