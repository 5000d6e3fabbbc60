//! Creation of the tables.

ghost use Rattle.std.specs.Prelude.{◌≡◌, IfErr, Ok};
ghost use Rattle.sqlite.specs.Compile.{table_defined_by};
ghost use Rattle.store_sql.specs.Schema.{no_schema, without_ca, ca};
ghost use Rattle.store_sql.specs.Making.{before, created_table, create_text};
ghost use Rattle.store_sql.specs.Faults.{IsOfStatement};
ghost use Rattle.store_sql.specs.Calls.{AddsCa, Completes, Creates, FailsWhere, IsBare, Stays, WaitsAt};
ghost use Rattle.store_sql.specs.Honest.{On, OutlivesBy};

use crate::sql::{
    CREATE_CA, CREATE_CERT, CREATE_DEPARTMENT, CREATE_OFFICE, CREATE_REQUEST, CREATE_REVOKED,
    CREATE_RUN,
};
use crate::table_fault::{Fault, done};
use sqlite::{Alter, Connection};

/// The name of one of the office's tables.
#[derive(Clone, Copy)]
enum TableName {
    Office,
    Department,
    Cert,
    Request,
    Run,
    RevokedKeyId,
    Ca,
}

impl TableName {
    /// The statement that creates the table.
    fn create(self) -> &'static str
        ensures text { result.now ≡ create_text self }
        ensures defines { table_defined_by result.now ≡ Ok (created_table self) }
    {
        match self {
            TableName::Office => CREATE_OFFICE,
            TableName::Department => CREATE_DEPARTMENT,
            TableName::Cert => CREATE_CERT,
            TableName::Request => CREATE_REQUEST,
            TableName::Run => CREATE_RUN,
            TableName::RevokedKeyId => CREATE_REVOKED,
            TableName::Ca => CREATE_CA,
        }
    }
}

/// Creates this table, if the tables before it exist.
fn create<S: Alter>(conn: &mut Connection<S>, name: TableName) -> Result<(), Fault>
    ensures creates { On S.Store (Creates (before name) (created_table name)) conn.old conn.new result }
    ensures fault { On S.Store (FailsWhere (λ s. s.now.schema ≡ before name)) conn.old conn.new result }
    ensures undamaged { IfErr result IsOfStatement }
    ensures stays { On S.Store Stays conn.old conn.new result }
    ensures survives { OutlivesBy S.Store (WaitsAt (before name)) conn.old conn.new }
{
    done(conn.execute(name.create(), &[]))
}

/// Adds the table of CAs to the other tables, whose rows stay.
pub fn create_ca<S: Alter>(conn: &mut Connection<S>) -> Result<(), Fault>
    ensures creates { On S.Store (Creates without_ca ca) conn.old conn.new result }
    ensures adds { On S.Store AddsCa conn.old conn.new result }
    ensures fault { On S.Store (FailsWhere (λ s. s.now.schema ≡ without_ca)) conn.old conn.new result }
    ensures undamaged { IfErr result IsOfStatement }
    ensures stays { On S.Store Stays conn.old conn.new result }
    ensures survives { OutlivesBy S.Store (WaitsAt without_ca) conn.old conn.new }
{
    create(conn, TableName::Ca)
}

/// Creates all tables of the office in a database that has none. If that fails in a transaction, nothing of it is
/// committed.
pub fn create_tables<S: Alter>(conn: &mut Connection<S>) -> Result<(), Fault>
    ensures completes { On S.Store (Completes no_schema) conn.old conn.new result }
    ensures fault { On S.Store (FailsWhere (λ s. IsBare no_schema s.now)) conn.old conn.new result }
    ensures undamaged { IfErr result IsOfStatement }
    ensures stays { On S.Store Stays conn.old conn.new result }
    ensures survives { OutlivesBy S.Store (WaitsAt no_schema) conn.old conn.new }
{
    for name in [
        TableName::Office,
        TableName::Department,
        TableName::Cert,
        TableName::Request,
        TableName::Run,
        TableName::RevokedKeyId,
        TableName::Ca,
    ] {
        create(conn, name)?;
    }
    Ok(())
}
