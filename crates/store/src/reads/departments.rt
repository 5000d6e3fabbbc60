//! The department with a given name.
//!
//! Large values are dropped explicitly: if a function ends with one, its proof takes each field apart.

ghost use Rattle.std.specs.Prelude.{◌≡◌, IfOk, IfSome, IsTrue};
ghost use Rattle.message.specs.Values.{is_department};
ghost use Rattle.office.specs.State.{department_named};
ghost use Rattle.store.specs.Departments.{department_of_row};
ghost use Rattle.store.specs.Reading.{IsRead};
ghost use Rattle.store.specs.ShowingRows.{AsksRows};
ghost use Rattle.store.specs.Finding.{value_in};

use crate::rows::read_department;
use message::Department;
use sqlite::{Alter, Connection};
use std::alloc::Global;
use store_sql::{DepartmentRow, Fault, find_department as find_row};

fn read_found(alloc: Global, found: Option<DepartmentRow>) -> Result<Option<Department>, Fault>
    ensures exact { IsRead (value_in department_of_row found) result }
    ensures lawful { IfOk result (λ found. IfSome found (λ d. IsTrue (is_department d))) }
{
    match found {
        Some(row) => {
            let department = read_department(alloc, &row);
            drop(row);
            Ok(Some(department?))
        }
        None => Ok(None),
    }
}

/// The department with this name, if it exists. A row without a valid value is `Damaged`.
pub fn find_department<S: Alter>(
    alloc: Global,
    conn: &mut Connection<S>,
    name: &[u8],
) -> Result<Option<Department>, Fault>
    ensures asks { AsksRows S.Store (λ s kept found. found ≡ department_named s name.now) conn.old conn.new result }
    ensures lawful { IfOk result (λ found. IfSome found (λ d. IsTrue (is_department d))) }
{
    let found = find_row(alloc, conn, name)?;
    read_found(alloc, found)
}
