//! The table of departments.

ghost use Rattle.std.specs.Prelude.{◌≡◌, ◌∷◌, []};
ghost use Rattle.std.specs.Ordering.{nat_cmp};
ghost use Rattle.std.specs.Cmp.Lexicographic.{slice_cmp};
ghost use Rattle.store_sql.specs.Cells.{department_cells};
ghost use Rattle.store_sql.specs.Changes.{departments_named, with_department_row};
ghost use Rattle.store_sql.specs.Calls.{FindsOne};
ghost use Rattle.store_sql.specs.Refusals.{RefusesDepartment};
ghost use Rattle.store_sql.specs.Statements.{Reads, ReadsSorted, WritesRows};

use crate::columns::{Columns, found, found_first};
use crate::kind::{Kind, is_row_of, number_at, text_at};
use crate::memory::Memory;
use crate::number::Number;
use crate::sql::{EVERY_DEPARTMENT, FIND_DEPARTMENT, PUT_DEPARTMENT};
use crate::table_fault::{Fault, done};
use sqlite::types::ValueRef;
use sqlite::{Alter, Connection, Row};
use std::alloc::Global;
use text::Text;

/// A department. Lists are texts joined by commas, in the order given.
#[derive(Drop)]
pub struct DepartmentRow {
    /// Its name, the primary key.
    pub name: Text,
    /// 1 for users, 2 for hosts.
    pub kind: Number,
    pub admins: Text,
    pub rules: Text,
    pub options: Text,
    pub extensions: Text,
    /// The longest lifetime of a certificate, in seconds.
    pub max_life: Number,
    pub namespaces: Text,
}

impl DepartmentRow {
    ghost use Rattle.sqlite.specs.Values.{bound};
    ghost use Rattle.store_sql.specs.Cells.{department_cells};

    fn values(&self) -> [ValueRef<'_>; 8]
        ensures { bound result ≡ department_cells self.now }
    {
        [
            ValueRef::Text(self.name.as_slice()),
            self.kind.value(),
            ValueRef::Text(self.admins.as_slice()),
            ValueRef::Text(self.rules.as_slice()),
            ValueRef::Text(self.options.as_slice()),
            ValueRef::Text(self.extensions.as_slice()),
            self.max_life.value(),
            ValueRef::Text(self.namespaces.as_slice()),
        ]
    }
}

impl Columns for DepartmentRow {
    ghost use Rattle.std.specs.Prelude.{◌∷◌, [], refl};
    ghost use Rattle.store_sql.specs.Kinds.{has_kinds};
    ghost use Rattle.store_sql.specs.Cells.{department_cells, department_kinds};

    ghost cells = { department_cells };

    ghost is_row = { has_kinds department_kinds };

    ghost fits = { λ _. refl };

    fn is_row(row: &Row) -> bool {
        is_row_of(
            row,
            &[
                Kind::Text,
                Kind::Number,
                Kind::Text,
                Kind::Text,
                Kind::Text,
                Kind::Text,
                Kind::Number,
                Kind::Text,
            ],
        )
    }

    fn copied_from(memory: &mut Memory, row: &Row) -> DepartmentRow {
        DepartmentRow {
            name: text_at(memory, row, 0),
            kind: number_at(row, 1),
            admins: text_at(memory, row, 2),
            rules: text_at(memory, row, 3),
            options: text_at(memory, row, 4),
            extensions: text_at(memory, row, 5),
            max_life: number_at(row, 6),
            namespaces: text_at(memory, row, 7),
        }
    }
}

/// Inserts a department, or replaces the one with its name. `Device` also if the row is too long, or no row number is
/// left.
pub fn put_department<S: Alter>(
    conn: &mut Connection<S>,
    department: &DepartmentRow,
) -> Result<(), Fault>
    ensures { WritesRows S.Store (with_department_row department.now) (RefusesDepartment department.now)
        conn.old conn.new result }
{
    done(conn.execute(PUT_DEPARTMENT, &department.values()))
}

/// The department with this name, if there is one. `Damaged` if its row has another form.
pub fn find_department<S: Alter>(
    alloc: Global,
    conn: &mut Connection<S>,
    name: &[u8],
) -> Result<Option<DepartmentRow>, Fault>
    ensures { Reads S.Store (FindsOne (departments_named name.now)) conn.old conn.new result }
{
    found_first(
        alloc,
        conn.query_all(FIND_DEPARTMENT, &[ValueRef::Text(name)]),
    )
}

/// Each department, in byte order of the names. `Damaged` if a row has another form.
pub fn every_department<S: Alter>(
    alloc: Global,
    conn: &mut Connection<S>,
) -> Result<Vec<DepartmentRow>, Fault>
    ensures { ReadsSorted S.Store (λ c. c.departments) (λ d. d.name) (slice_cmp nat_cmp) conn.old conn.new result }
{
    found(alloc, conn.query_all(EVERY_DEPARTMENT, &[]))
}
