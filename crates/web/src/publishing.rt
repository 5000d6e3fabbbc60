//! Published data: the key revocation list, the allowed signers and the CAs.

ghost use Rattle.std.specs.Prelude.{◌≡◌, ◌++◌, length, map, IsTrue, IfOk, OnOk, IfErr};
ghost use Rattle.krl.specs.Published.{fits, published_text};
ghost use Rattle.http_requests.specs.declared.resource.Resource.TheVariants as resource;
ghost use Rattle.http_requests.specs.declared.response.MediaType.TheVariants.{PlainText, Bytes};
ghost use Rattle.http_requests.specs.Responses.{response_text};
ghost use Rattle.office.specs.Publication.{published_list};
ghost use Rattle.office.specs.History.{state};
ghost use Rattle.office.specs.Faults.{HasRegisterCause};
ghost use Rattle.office.specs.Registers.{AnswersBy, FailsAsARegister, Preserves, WhereMeant};
ghost use Rattle.lines.specs.Digests.{fingerprint_text};
ghost use Rattle.lines.specs.Signers.{signers_text};
ghost use Rattle.web.specs.Answers.{ListFits};
ghost use Rattle.web.specs.Causes.{FailsAfter, IsOfAList};
ghost use Rattle.web.specs.Forms.{MayShow};
ghost use Rattle.web.specs.Reports.{ca_line, ca_lines, ca_report, is_signing, pattern_of, signer_row, signer_rows};
ghost use Rattle.web.specs.Reports.{signer_rows_of, signers_report};

use crate::pieces::{put_number, put_pieces};
use crate::room::{around, room};
use http_requests::{MAX_RESPONSE_HEAD, MediaType, begin_response};
use krl_writer::{krl_len, write_krl};
use lines::{KeyLine, SignerRow, fingerprint, write_signers};
use message::Department;
use office::{Ca, MOST_CAS, Registry, Revoked, StoreFault};
use std::alloc::Global;
use text::{NoMemory, Text, Texts};
use values::{Kind, after_name, put_decimal};
use wire::VecSink;

/// The response with a list, written from front to back into the room for it. A section whose length doesn't fit in 32
/// bits counts as lack of memory, and more parts than an office may have CAs as damage.
fn list_response(alloc: Global, revoked: &Revoked) -> Result<Vec<u8>, StoreFault>
    ensures ok { IfOk result (λ v. v.items ≡ response_text 200 Bytes
        (published_text revoked.now.head revoked.now.parts.items revoked.now.key_ids)) }
    ensures fits { OnOk result (IsTrue (fits revoked.now.parts.items revoked.now.key_ids)) }
    ensures err { IfErr result (IsOfAList (length revoked.now.parts.items)) }
{
    let parts = revoked.parts.as_slice();
    if MOST_CAS < parts.len() {
        return Err(StoreFault::Damaged);
    }
    let Some(size) = krl_len(parts, &revoked.key_ids) else {
        return Err(StoreFault::NoMemory);
    };
    let size = size as usize;
    let mut out = room(alloc, size.saturating_add(MAX_RESPONSE_HEAD))?;
    begin_response(&mut out, MediaType::Bytes, size);
    let mut sink = VecSink::new(out);
    match write_krl(&revoked.head, parts, &revoked.key_ids, &mut sink) {
        Ok(()) => Ok(sink.into_vec()),
        Err(_) => Err(StoreFault::NoMemory),
    }
}

/// The response with the key revocation list.
pub(crate) fn to_list<R: Registry>(registry: &mut R, alloc: Global) -> Result<Vec<u8>, StoreFault>
    ensures preserves { Preserves R.is_honest R.is_open R.is_as_before R.means registry.old registry.new }
    ensures stays_open { R.is_honest registry.new → OnOk result (R.is_open registry.new) }
    ensures row { R.is_honest registry.new → AnswersBy R.means registry.old result
        (λ o l v. v.items ≡ response_text 200 Bytes (published_list (state o l))) }
    ensures form { IfOk result (λ v. MayShow resource.RevocationList v.items) }
    ensures fits { R.is_honest registry.new → OnOk result
        (WhereMeant R.means registry.old (λ o l. ListFits (state o l))) }
    ensures cause { IfErr result (λ e. HasRegisterCause e (R.fails registry.old registry.new)) }
    ensures only { R.is_honest registry.new → FailsAsARegister R.means registry.old result }
{
    let revoked = registry.revoked(alloc)?;
    list_response(alloc, &revoked)
}

fn is_signing(department: &Department) -> bool
    ensures { result ≡ is_signing department.now }
{
    match department.kind {
        Kind::User => !department.namespaces.is_empty(),
        Kind::Host => false,
    }
}

/// The pattern of the principals that meet a rule.
fn pattern_of(alloc: Global, rule: &[u8]) -> Result<Text, NoMemory>
    ensures { IfOk result (λ t. t ≡ pattern_of rule.now) }
{
    let Some(end) = after_name(rule) else {
        return Text::from_slice(alloc, rule);
    };
    let mut pattern = Vec::new(alloc);
    pattern.push(b'*')?;
    pattern.extend_from_slice(end)?;
    Ok(Text::from_vec(pattern))
}

fn patterns_of(alloc: Global, rules: &[Text]) -> Result<Texts, NoMemory>
    ensures { IfOk result (λ ts. ts ≡ map pattern_of rules.now) }
{
    let mut patterns = Texts::new(alloc);
    for rule in rules {
        patterns.push(pattern_of(alloc, rule.as_slice())?)?;
    }
    Ok(patterns)
}

fn signer_row(alloc: Global, department: &Department, ca: &Ca) -> Result<SignerRow, NoMemory>
    ensures { IfOk result (λ row. row ≡ signer_row department.now ca.now) }
{
    Ok(SignerRow {
        rules: patterns_of(alloc, department.rules.as_slice())?,
        namespaces: department.namespaces.copied(alloc)?,
        ca: ca.key,
    })
}

fn push_rows(
    rows: &mut Vec<SignerRow>,
    alloc: Global,
    department: &Department,
    cas: &[Ca],
) -> Result<(), NoMemory>
    ensures { OnOk result (rows.new.items ≡ rows.old.items ++ signer_rows_of cas.now department.now) }
{
    if !is_signing(department) {
        return Ok(());
    }
    for ca in cas {
        rows.push(signer_row(alloc, department, ca)?)?;
    }
    Ok(())
}

fn signer_rows(
    alloc: Global,
    departments: &[Department],
    cas: &[Ca],
) -> Result<Vec<SignerRow>, NoMemory>
    ensures { IfOk result (λ rows. rows.items ≡ signer_rows departments.now cas.now) }
{
    let mut rows = Vec::new(alloc);
    for department in departments {
        push_rows(&mut rows, alloc, department, cas)?;
    }
    Ok(rows)
}

fn signers_text(alloc: Global, rows: &[SignerRow]) -> Result<Vec<u8>, NoMemory>
    ensures { IfOk result (λ v. v.items ≡ signers_text rows.now) }
{
    let mut sink = VecSink::new(Vec::new(alloc));
    match write_signers(rows, &mut sink) {
        Ok(()) => Ok(sink.into_vec()),
        Err(_) => Err(NoMemory),
    }
}

/// The response with the rows for these departments and CAs.
fn signers_response(
    alloc: Global,
    departments: &[Department],
    cas: &[Ca],
) -> Result<Vec<u8>, StoreFault>
    ensures ok { IfOk result (λ v. v.items ≡ response_text 200 PlainText
        (signers_text (signer_rows departments.now cas.now))) }
    ensures err { IfErr result (λ e. e ≡ StoreFault.NoMemory) }
{
    let rows = signer_rows(alloc, departments, cas)?;
    let report = signers_text(alloc, &rows)?;
    around(report, MediaType::PlainText)
}

/// The response with the allowed signers.
pub(crate) fn to_signers<R: Registry>(
    registry: &mut R,
    alloc: Global,
) -> Result<Vec<u8>, StoreFault>
    ensures preserves { Preserves R.is_honest R.is_open R.is_as_before R.means registry.old registry.new }
    ensures stays_open { R.is_honest registry.new → OnOk result (R.is_open registry.new) }
    ensures row { R.is_honest registry.new → AnswersBy R.means registry.old result
        (λ o l v. v.items ≡ response_text 200 PlainText (signers_report (state o l))) }
    ensures form { IfOk result (λ v. MayShow resource.Signers v.items) }
    ensures cause { R.is_honest registry.new → IfErr result (λ e. HasRegisterCause e
        (FailsAfter R.is_open R.is_as_before R.means R.fails registry.old registry.new)) }
    ensures only { R.is_honest registry.new → FailsAsARegister R.means registry.old result }
{
    let departments = registry.departments(alloc)?;
    let cas = registry.cas(alloc)?;
    signers_response(alloc, &departments, &cas)
}

fn fingerprint_of(ca: &Ca) -> [u8; 50]
    ensures { result ≡ fingerprint_text ca.now.key }
{
    fingerprint(&KeyLine {
        key: ca.key,
        comment: None,
    })
}

fn put_ca(out: &mut Vec<u8>, number: u64, ca: &Ca) -> Result<(), NoMemory>
    ensures { OnOk result (out.new.items ≡ out.old.items ++ ca_line number ca.now) }
{
    put_decimal(out, number)?;
    put_number(out, b" ", ca.since)?;
    let fingerprint = fingerprint_of(ca);
    put_pieces(out, &[b" ", fingerprint.as_slice(), b"\n"])
}

fn ca_lines(alloc: Global, cas: &[Ca]) -> Result<Vec<u8>, NoMemory>
    ensures { IfOk result (λ v. v.items ≡ ca_lines cas.now) }
{
    let mut out = Vec::new(alloc);
    let mut number = 0;
    for ca in cas {
        number += 1;
        put_ca(&mut out, number, ca)?;
    }
    Ok(out)
}

/// The response with the CAs.
pub(crate) fn to_cas<R: Registry>(registry: &mut R, alloc: Global) -> Result<Vec<u8>, StoreFault>
    ensures preserves { Preserves R.is_honest R.is_open R.is_as_before R.means registry.old registry.new }
    ensures stays_open { R.is_honest registry.new → OnOk result (R.is_open registry.new) }
    ensures row { R.is_honest registry.new → AnswersBy R.means registry.old result
        (λ o l v. v.items ≡ response_text 200 PlainText (ca_report (state o l))) }
    ensures form { IfOk result (λ v. MayShow resource.Cas v.items) }
    ensures cause { IfErr result (λ e. HasRegisterCause e (R.fails registry.old registry.new)) }
    ensures only { R.is_honest registry.new → FailsAsARegister R.means registry.old result }
{
    let cas = registry.cas(alloc)?;
    let report = ca_lines(alloc, &cas)?;
    around(report, MediaType::PlainText)
}
