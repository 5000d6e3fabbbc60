//! A department, to its row in the table of departments and back.

use std::alloc::{Alloc, Global};
use std::test::Fail;
use store::{DepartmentRow, Number, RowFault, Text, department_row, read_department_row};

// The row of a department, with this number for its kind.
fn row_of_kind(alloc: Global, kind: u64) -> Result<DepartmentRow, Fail> {
    Ok(DepartmentRow {
        name: Text::from_slice(alloc, b"web")?,
        kind: Number::new(kind).unwrap_or(Number::ZERO),
        admins: Text::from_slice(alloc, b"ana,ben")?,
        rules: Text::from_slice(alloc, b"*.example.org")?,
        options: Text::new(alloc),
        extensions: Text::new(alloc),
        max_life: Number::new(86400).unwrap_or(Number::ZERO),
        namespaces: Text::new(alloc),
    })
}

#[test]
fn a_department_is_read_from_its_row(rt: HostRuntime) -> Result<(), Fail> {
    let row = row_of_kind(rt.alloc(), 2)?;
    let department = read_department_row(rt.alloc(), &row)?;
    assert_eq!(rt; department.name.as_slice(), b"web".as_slice());
    assert_eq!(rt; department.administrators.len(), 2);
    if department.longest_life != 86400 {
        return Err(Fail::new("another longest lifetime"));
    }
    let again = department_row(rt.alloc(), &department)?;
    assert_eq!(rt; again.admins.as_slice(), b"ana,ben".as_slice());
    assert_eq!(rt; again.kind.get(), 2);
    Ok(())
}

#[test]
fn a_row_of_no_kind_is_damaged(rt: HostRuntime) -> Result<(), Fail> {
    let row = row_of_kind(rt.alloc(), 3)?;
    match read_department_row(rt.alloc(), &row) {
        Ok(_) => Err(Fail::new("a department of no kind")),
        Err(fault) => {
            assert!(rt; fault == RowFault::Damaged);
            Ok(())
        }
    }
}
