//! The texts of the departments.

ghost use Rattle.std.specs.Prelude.{◌≡◌, IfOk, OnOk, IfErr};
ghost use Rattle.http_requests.specs.declared.resource.Resource.TheVariants as resource;
ghost use Rattle.http_requests.specs.declared.response.MediaType.TheVariants.{PlainText};
ghost use Rattle.http_requests.specs.Responses.{response_text};
ghost use Rattle.office.specs.History.{state};
ghost use Rattle.office.specs.Faults.{HasRegisterCause};
ghost use Rattle.office.specs.Registers.{AnswersBy, FailsAsARegister, Preserves};
ghost use Rattle.web.specs.Forms.{MayShow};
ghost use Rattle.web.specs.Reports.{department_reports, departments_report};

use crate::room::around;
use http_requests::MediaType;
use message::{Department, put_department};
use office::{Registry, StoreFault};
use std::alloc::Global;
use text::NoMemory;

fn department_reports(alloc: Global, departments: &[Department]) -> Result<Vec<u8>, NoMemory>
    ensures { IfOk result (λ v. v.items ≡ department_reports departments.now) }
{
    let mut out = Vec::new(alloc);
    for department in departments {
        put_department(&mut out, department)?;
    }
    Ok(out)
}

/// The response with the texts of the departments.
pub(crate) fn to_departments<R: Registry>(
    registry: &mut R,
    alloc: Global,
) -> Result<Vec<u8>, StoreFault>
    ensures preserves { Preserves R.is_honest R.is_open R.is_as_before R.means registry.old registry.new }
    ensures stays_open { R.is_honest registry.new → OnOk result (R.is_open registry.new) }
    ensures row { R.is_honest registry.new → AnswersBy R.means registry.old result
        (λ o l v. v.items ≡ response_text 200 PlainText (departments_report (state o l))) }
    ensures form { IfOk result (λ v. MayShow resource.Departments v.items) }
    ensures cause { IfErr result (λ e. HasRegisterCause e (R.fails registry.old registry.new)) }
    ensures only { R.is_honest registry.new → FailsAsARegister R.means registry.old result }
{
    let departments = registry.departments(alloc)?;
    let report = department_reports(alloc, &departments)?;
    around(report, MediaType::PlainText)
}
