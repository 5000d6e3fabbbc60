//! The departments in the tables.

ghost use Rattle.std.specs.Prelude.{◌≡◌};
ghost use Rattle.office.specs.Publication.{departments_of};
ghost use Rattle.store.specs.ShowingRows.{AsksRows};

use crate::rows::department_rows::read_department;
use crate::rows::row_reader::{OfRow, read_each};
use message::Department;
use sqlite::{Alter, Connection};
use std::alloc::Global;
use store_sql::{DepartmentRow, Fault, every_department};

impl OfRow<DepartmentRow> for Department {
    ghost use Rattle.store.specs.Departments.{department_of_row};

    ghost value = { department_of_row };

    fn of_row(alloc: Global, row: &DepartmentRow) -> Result<Department, Fault> {
        read_department(alloc, row)
    }
}

/// The departments by name. `Damaged` if a row isn't that of a valid department.
pub fn read_departments<S: Alter>(
    alloc: Global,
    conn: &mut Connection<S>,
) -> Result<Vec<Department>, Fault>
    ensures { AsksRows S.Store (λ s kept rows. rows.items ≡ departments_of s) conn.old conn.new result }
{
    let rows = every_department(alloc, conn)?;
    read_each(alloc, rows.as_slice())
}
