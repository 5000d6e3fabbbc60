//! Who may send, and what a department's profile permits.

ghost use Rattle.std.specs.Prelude.{◌≡◌, ◌<◌, IsTrue, Some, false, option_copied, true};
ghost use Rattle.std.specs.List.{list_all};
ghost use Rattle.std.specs.Option.{option_map_or};
ghost use Rattle.message.specs.Permissions.{is_listed};
ghost use Rattle.office.specs.Permissions.{
  administers,
  is_meant_by,
  is_permitted,
  is_permitted_to,
  is_renewal_permitted,
  is_renewal_permitted_to,
  may_administer,
  may_ask,
  may_ask_about,
  may_have,
};

use crate::certificate::Certificate;
use crate::opening::Opening;
use message::{
    Department, Issue, Renewal, are_listed, are_options_permitted, is_key_permitted,
    is_life_permitted, means, meet_name_rules, meet_rules,
};
use text::Text;
use values::name_of;

fn administers(caller: &[u8], department: Option<&Department>) -> bool
    ensures { result ≡ administers caller.now (option_copied department.entry) }
{
    match department {
        Some(department) => department.administrators.contains(caller),
        None => false,
    }
}

/// Whether the caller is root, or an administrator of the department.
pub(crate) fn may_administer(
    opening: &Opening,
    caller: &[u8],
    department: Option<&Department>,
) -> bool
    ensures { result ≡ may_administer opening.now caller.now (option_copied department.entry) }
{
    opening.root.is(caller) || administers(caller, department)
}

/// Whether a word with `{name}` among the department's administrators means the caller, for this key ID.
fn is_meant_by(caller: &[u8], department: Option<&Department>, key_id: &[u8]) -> bool
    ensures { result ≡ is_meant_by caller.now (option_copied department.entry) key_id.now }
{
    match department {
        Some(department) => means(department, name_of(key_id), caller),
        None => false,
    }
}

/// Whether the caller is root, an administrator of the department, or the one that it means by the key ID's name.
pub(crate) fn may_ask(
    opening: &Opening,
    caller: &[u8],
    department: Option<&Department>,
    key_id: &[u8],
) -> bool
    ensures { result ≡ may_ask opening.now caller.now (option_copied department.entry) key_id.now }
{
    may_administer(opening, caller, department) || is_meant_by(caller, department, key_id)
}

fn is_meant_by_own(
    caller: &[u8],
    department: Option<&Department>,
    certificate: Option<&Certificate>,
) -> bool
    ensures { result ≡ option_map_or
        (λ c. is_meant_by caller.now (option_copied department.entry) c.fields.key_id) (option_copied certificate.entry)
        false }
{
    match certificate {
        Some(certificate) => {
            is_meant_by(caller, department, certificate.fields.key_id.as_slice())
        }
        None => false,
    }
}

/// Whether the caller may ask for something that concerns this certificate of the department: by its own key ID.
pub(crate) fn may_ask_about(
    opening: &Opening,
    caller: &[u8],
    department: Option<&Department>,
    certificate: Option<&Certificate>,
) -> bool
    ensures { result ≡ may_ask_about opening.now caller.now (option_copied department.entry)
        (option_copied certificate.entry) }
{
    may_administer(opening, caller, department) || is_meant_by_own(caller, department, certificate)
}

/// Whether the caller may have these principals: all that the department permits, unless he may ask only by his name.
fn may_have(
    opening: &Opening,
    caller: &[u8],
    department: &Department,
    key_id: &[u8],
    principals: &[Text],
) -> bool
    ensures { result ≡ may_have opening.now caller.now (Some department.now) key_id.now principals.now }
{
    may_administer(opening, caller, Some(department))
        || meet_name_rules(department, name_of(key_id), principals)
}

fn are_extensions_permitted(department: &Department, issue: &Issue) -> bool
    ensures { result ≡ list_all (λ e. is_listed department.now.extensions e) issue.now.extensions }
{
    issue
        .extensions
        .as_slice()
        .iter()
        .all(|name| department.extensions.contains(name.as_slice()))
}

/// Whether the department's profile permits what the issue asks for.
pub(crate) fn is_permitted(department: &Department, issue: &Issue) -> bool
    ensures { result ≡ is_permitted department.now issue.now }
{
    meet_rules(
        department,
        name_of(issue.key_id.as_slice()),
        issue.principals.as_slice(),
    ) && are_options_permitted(department, issue.options.as_slice())
        && are_extensions_permitted(department, issue)
        && is_life_permitted(department, issue.after, issue.before)
        && is_key_permitted(department, issue.key.key_type)
}

/// Whether the department's profile permits the certificate's contents, for the requested validity.
pub(crate) fn is_renewal_permitted(
    department: &Department,
    certificate: &Certificate,
    renewal: &Renewal,
) -> bool
    ensures { result ≡ is_renewal_permitted department.now certificate.now renewal.now }
{
    let fields = &certificate.fields;
    meet_rules(
        department,
        name_of(fields.key_id.as_slice()),
        fields.principals.as_slice(),
    ) && are_options_permitted(department, fields.options.pairs())
        && are_listed(&department.extensions, fields.extensions.pairs())
        && is_life_permitted(department, renewal.after, renewal.before)
        && is_key_permitted(department, fields.key_type)
}

/// Whether the department's profile permits what the issue asks for, and permits it to this caller.
pub(crate) fn is_permitted_to(
    opening: &Opening,
    caller: &[u8],
    department: &Department,
    issue: &Issue,
) -> bool
    ensures same { result ≡ is_permitted_to opening.now caller.now (Some department.now) issue.now }
    ensures permitted { result ≡ true → IsTrue (is_permitted department.now issue.now) }
{
    is_permitted(department, issue)
        && may_have(
            opening,
            caller,
            department,
            issue.key_id.as_slice(),
            issue.principals.as_slice(),
        )
}

/// Whether the department's profile permits the renewal, and permits it to this caller.
pub(crate) fn is_renewal_permitted_to(
    opening: &Opening,
    caller: &[u8],
    department: &Department,
    certificate: &Certificate,
    renewal: &Renewal,
) -> bool
    ensures same { result ≡ is_renewal_permitted_to opening.now caller.now (Some department.now) certificate.now
        renewal.now }
    ensures order { result ≡ true → renewal.now.after < renewal.now.before }
{
    let fields = &certificate.fields;
    is_renewal_permitted(department, certificate, renewal)
        && may_have(
            opening,
            caller,
            department,
            fields.key_id.as_slice(),
            fields.principals.as_slice(),
        )
}
