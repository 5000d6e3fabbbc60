//! The certificate that an issue message makes.

ghost use Rattle.std.specs.Prelude.{◌≡◌, [], None, IfOk, take};
ghost use Rattle.cert.specs.Options.{listing};
ghost use Rattle.cert.specs.OptionFaults.{options_fault};
ghost use Rattle.values.specs.declared.option_field.OptionField.TheVariants.{CriticalOptions, Extensions};
ghost use Rattle.office.specs.State.{newest_key};
ghost use Rattle.office.specs.Certificates.{certificate_for, flags};
ghost use Rattle.office.specs.Views.{IsIssuable};
ghost use Rattle.office.specs.Decided.{IsLawfulChange, IsMade, certified};

use crate::decision::certified;
use crate::view::{Decision, Stop, View};
use cert::{CertFields, OptionFault, Options};
use message::{Department, Issue};
use std::alloc::Global;
use text::{NoMemory, Pair, Text, Texts, both};
use values::{Kind, OptionField};

/// Options from pairs that have no fault.
fn options_of(
    alloc: Global,
    kind: Kind,
    field: OptionField,
    pairs: &[Pair],
) -> Result<Options, NoMemory>
    requires { options_fault field kind pairs.now ≡ None }
    ensures { IfOk result (λ o. o ≡ listing pairs.now) }
{
    match Options::build(alloc, kind, field, pairs) {
        Ok(options) => Ok(options),
        Err(OptionFault::NoMemory) => Err(NoMemory),
        Err(_) => unreachable!(),
    }
}

/// An extension as a flag, without a value.
fn flag_of(alloc: Global, name: &Text) -> Result<Pair, NoMemory>
    ensures { IfOk result (λ p. p ≡ record { name = name.now; value = [] }) }
{
    Ok(Pair {
        name: name.copied(alloc)?,
        value: Text::new(alloc),
    })
}

fn flags_of(alloc: Global, names: &[Text]) -> Result<Vec<Pair>, NoMemory>
    ensures { IfOk result (λ v. v.items ≡ flags names.now) }
{
    let mut flags = Vec::with_capacity(alloc, names.len())?;
    for name in names {
        flags.push(flag_of(alloc, name)?)?;
    }
    Ok(flags)
}

/// Extensions with these names.
fn extensions_of(alloc: Global, kind: Kind, names: &[Text]) -> Result<Options, NoMemory>
    requires { options_fault Extensions kind (flags names.now) ≡ None }
    ensures { IfOk result (λ o. o ≡ listing (flags names.now)) }
{
    let flags = flags_of(alloc, names)?;
    options_of(alloc, kind, OptionField::Extensions, flags.as_slice())
}

/// The key ID and the principals that an issue asks for.
fn both_names(alloc: Global, issue: &Issue) -> Result<(Text, Texts), NoMemory>
    ensures { IfOk result (λ both. both ≡ (issue.now.key_id, issue.now.principals)) }
{
    both(issue.key_id.copied(alloc), issue.principals.copied(alloc))
}

/// The critical options and the extensions that an issue asks for.
fn both_options(alloc: Global, kind: Kind, issue: &Issue) -> Result<(Options, Options), NoMemory>
    requires options { options_fault CriticalOptions kind issue.now.options ≡ None }
    requires extensions { options_fault Extensions kind (flags issue.now.extensions) ≡ None }
    ensures { IfOk result (λ both. both ≡ (listing issue.now.options, listing (flags issue.now.extensions))) }
{
    let pairs = issue.options.as_slice();
    let options = options_of(alloc, kind, OptionField::CriticalOptions, pairs);
    both(
        options,
        extensions_of(alloc, kind, issue.extensions.as_slice()),
    )
}

/// The key of the CA with the greatest number.
pub(crate) fn newest_key(view: &View) -> [u8; 32]
    ensures { result ≡ newest_key view.now.opening.now view.now.cas.now }
{
    match view.cas.last() {
        Some(ca) => ca.key,
        None => view.opening.ca,
    }
}

/// The certificate for an allowed issue, under the next serial.
pub(crate) fn issued(
    alloc: Global,
    view: &View,
    department: &Department,
    issue: &Issue,
    nonce: &[u8; 32],
) -> Result<Decision, Stop>
    requires { IsIssuable view.now department.now issue.now }
    ensures made { IsMade result (certified view.now (certificate_for issue.now view.now.next department.now.kind
        (newest_key view.now.opening.now view.now.cas.now) nonce.now)) }
    ensures change { IfOk result (λ d. IsLawfulChange d.change) }
{
    let (key_id, principals) = both_names(alloc, issue)?;
    let key = issue.key.key.copied(alloc)?;
    let (options, extensions) = both_options(alloc, department.kind, issue)?;
    let fields = CertFields {
        key_type: issue.key.key_type,
        nonce: *nonce,
        key,
        serial: view.next,
        kind: department.kind,
        key_id,
        principals,
        after: issue.after,
        before: issue.before,
        options,
        extensions,
        ca: newest_key(view),
    };
    certified(alloc, view, &issue.department, fields)
}
