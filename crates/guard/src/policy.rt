//! The departments in a guard's policy.

ghost use Rattle.std.specs.Prelude.{◌≡◌, option_copied};
ghost use Rattle.guard.specs.State.{department_named};

use message::Department;
use std::marker::Model;

/// The largest size of a policy file, in bytes.
pub const LONGEST_POLICY: usize = 1048576;

/// What may be signed: departments with different names. Contracts see it as their list.
#[derive(Drop)]
pub struct Policy {
    departments: Vec<Department>,
}

impl Model for Policy {
    ghost use Rattle.std.specs.Prelude.{List};
    ghost use Rattle.message.specs.declared.department.Department.{Department};

    ghost Value = { List Department };

    ghost view = { λ p. p.departments.items };
}

/// The department with a name.
pub(crate) fn named<'a>(departments: &'a [Department], name: &[u8]) -> Option<&'a Department>
    ensures { option_copied result ≡ department_named departments.now name.now }
{
    departments.iter().find(|d| d.name.is(name))
}

impl Policy {
    /// A policy with these departments.
    pub(crate) fn of(departments: Vec<Department>) -> Policy
        ensures { result ≡ departments.items }
    {
        Policy { departments }
    }

    /// The departments, in the order of the file.
    pub fn departments(&self) -> &[Department]
        ensures { result.now ≡ self.now }
    {
        self.departments.as_slice()
    }

    /// The department with a name.
    pub fn named(&self, name: &[u8]) -> Option<&Department>
        ensures { option_copied result ≡ department_named self.now name.now }
    {
        named(self.departments.as_slice(), name)
    }
}
