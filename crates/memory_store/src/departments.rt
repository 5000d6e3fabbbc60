//! Departments in the order of their names.
//!
//! A replaced department is dropped explicitly: if it lives to the function's end, the proof takes its fields apart.

ghost use Rattle.std.specs.Prelude.{◌≡◌, OnOk, OnErr, find, option_copied};
ghost use Rattle.std.specs.List.{slice_get};
ghost use Rattle.std.specs.FinMap.Entries.{put};
ghost use Rattle.std.specs.Cmp.Lexicographic.{slice_cmp};
ghost use Rattle.std.specs.Ordering.{nat_cmp};
ghost use Rattle.memory_store.specs.Departments.{entries, is_before, place_of, is_some_named};
ghost use Rattle.memory_store.specs.Departments.{has_department_name};

use message::Department;
use std::mem::replace;
use text::NoMemory;

fn is_before(department: &Department, name: &[u8]) -> bool
    ensures { result ≡ is_before department.now name.now }
{
    name.cmp(department.name.as_slice()).is_gt()
}

// How many names come before this one.
fn place_of(departments: &[Department], name: &[u8]) -> usize
    ensures { result ≡ place_of departments.now name.now }
{
    departments
        .iter()
        .take_while(|d| is_before(d, name))
        .count()
}

fn is_at(departments: &[Department], place: usize, name: &[u8]) -> bool
    ensures { result ≡ is_some_named (slice_get departments.now place) name.now }
{
    match departments.get(place) {
        Some(department) => department.name.is(name),
        None => false,
    }
}

fn has_name(department: &Department, name: &[u8]) -> bool
    ensures { result ≡ has_department_name department.now name.now }
{
    department.name.is(name)
}

/// The department with a name.
pub(crate) fn named<'a>(departments: &'a [Department], name: &[u8]) -> Option<&'a Department>
    ensures { option_copied result ≡ find (λ d. has_department_name d name.now) departments.now }
{
    departments.iter().find(|d| has_name(d, name))
}

/// Puts a department in its place. One with the same name is replaced.
pub(crate) fn put_department(
    departments: &mut Vec<Department>,
    department: Department,
) -> Result<(), NoMemory>
    ensures ok { OnOk result (entries departments.new.items ≡ put (slice_cmp nat_cmp) department.name department
        (entries departments.old.items)) }
    ensures err { OnErr result (departments.new.items ≡ departments.old.items) }
{
    let place = place_of(departments, department.name.as_slice());
    if is_at(departments, place, department.name.as_slice()) {
        drop(replace(&mut departments[place], department));
    } else {
        departments.insert(place, department)?;
    }
    Ok(())
}
