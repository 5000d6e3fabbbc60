//! A look at the schema, before the tables are queried.

ghost use Rattle.std.specs.Prelude.{◌≡◌, length};
ghost use Rattle.std.specs.Str.{bytes_eq};
ghost use Rattle.std.specs.List.{list_all, zip};
ghost use Rattle.sqlite.specs.Held.{state};
ghost use Rattle.rows.specs.Look.{is_empty};

use sqlite::{Alter, Connection};
use sqlite_schema::schema::{Column, Schema};

fn has_nothing(schema: &Schema) -> bool
    ensures { result ≡ is_empty schema.now }
{
    schema.tables.len() == 0 && schema.indexes.len() == 0 && schema.views.len() == 0
}

/// Whether the database has no table, no index and no view.
pub fn is_empty<S: Alter>(conn: &Connection<S>) -> bool
    ensures { result ≡ is_empty (state S.Store conn.now).now.schema }
{
    has_nothing(conn.schema())
}

/// Whether the columns have these names, in order.
pub fn are_named(columns: &[Column], names: &[&str]) -> bool
    requires { length columns.now ≡ length names.now }
    ensures { result ≡ list_all (λ p. bytes_eq p.0.name p.1.now) (zip columns.now names.now) }
{
    for at in 0..names.len() {
        if columns[at].name.as_slice() != names[at].as_bytes() {
            return false;
        }
    }
    true
}
