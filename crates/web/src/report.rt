//! The table of certificates.

ghost use Rattle.std.specs.Prelude.{◌≡◌, ◌++◌, List, IfOk, OnOk, IfErr};
ghost use Rattle.http_requests.specs.declared.resource.Resource.TheVariants as resource;
ghost use Rattle.http_requests.specs.declared.response.MediaType.TheVariants.{PlainText};
ghost use Rattle.http_requests.specs.Responses.{response_text};
ghost use Rattle.office.specs.History.{state};
ghost use Rattle.office.specs.Faults.{HasRegisterCause};
ghost use Rattle.office.specs.Registers.{AnswersBy, FailsAsARegister, Preserves};
ghost use Rattle.office.specs.declared.certificate.Certificate.{Certificate};
ghost use Rattle.message.specs.Texts.{kind_text};
ghost use Rattle.web.specs.Reports.{entry_line, gap, moment_places, serial_places, standing_word, table_report};
ghost use Rattle.web.specs.Reports.{total_line};
ghost use Rattle.web.specs.Batches.{table_among};
ghost use Rattle.web.specs.Causes.{FailsAfter};
ghost use Rattle.web.specs.Forms.{MayShow};

use crate::batches::put_all;
use crate::pieces::{put_column, put_number, put_pieces};
use crate::room::around;
use http_requests::MediaType;
use office::{Entry, Registry, Revocations, Standing, StoreFault};
use std::alloc::Global;
use text::NoMemory;
use values::Kind;

fn serial_places() -> &'static [u8]
    ensures { result.now ≡ serial_places }
{
    b"                   "
}

fn moment_places() -> &'static [u8]
    ensures { result.now ≡ moment_places }
{
    b"            "
}

fn kind_word(kind: Kind) -> &'static [u8]
    ensures { result.now ≡ kind_text kind }
{
    match kind {
        Kind::User => b"user",
        Kind::Host => b"host",
    }
}

fn standing_word(standing: Standing) -> &'static [u8]
    ensures { result.now ≡ standing_word standing }
{
    match standing {
        Standing::Pending => b"pending",
        Standing::Signed => b"signed ",
        Standing::Revoked => b"revoked",
    }
}

fn put_words(out: &mut Vec<u8>, kind: Kind, standing: Standing) -> Result<(), NoMemory>
    ensures { OnOk result (out.new.items ≡ out.old.items
        ++ (kind_text kind ++ (gap ++ (standing_word standing ++ gap)))) }
{
    let standing = standing_word(standing);
    put_pieces(out, &[kind_word(kind), b"  ", standing, b"  "])
}

/// Appends the line of a certificate.
pub(crate) fn put_entry(out: &mut Vec<u8>, entry: &Entry) -> Result<(), NoMemory>
    ensures { OnOk result (out.new.items ≡ out.old.items ++ entry_line entry.now) }
{
    put_column(out, serial_places(), entry.serial)?;
    put_words(out, entry.kind, entry.standing)?;
    put_column(out, moment_places(), entry.after)?;
    put_column(out, moment_places(), entry.before)?;
    put_pieces(out, &[entry.key_id.as_slice(), b"\n"])
}

fn put_total(out: &mut Vec<u8>, count: u64, version: u64) -> Result<(), NoMemory>
    ensures { OnOk result (out.new.items ≡ out.old.items ++ total_line count version) }
{
    put_number(out, b"total ", count)?;
    put_number(out, b" version ", version)?;
    put_pieces(out, &[b"\n"])
}

/// The table, given the revocations.
fn table_beside<R: Registry>(
    registry: &mut R,
    alloc: Global,
    revocations: &Revocations,
    version: u64,
) -> Result<Vec<u8>, StoreFault>
    ensures preserves { Preserves R.is_honest R.is_open R.is_as_before R.means registry.old registry.new }
    ensures stays_open { R.is_honest registry.new → OnOk result (R.is_open registry.new) }
    ensures row { R.is_honest registry.new → AnswersBy R.means registry.old result
        (λ o l v. v.items ≡ table_among revocations.now (state o l).certificates version) }
    ensures form { IfOk result (λ v. (certificates : List Certificate)
        × (v.items ≡ table_among revocations.now certificates version)) }
    ensures cause { R.is_honest registry.new → IfErr result (λ e. HasRegisterCause e
        (FailsAfter R.is_open R.is_as_before R.means R.fails registry.old registry.new)) }
    ensures only { R.is_honest registry.new → FailsAsARegister R.means registry.old result }
{
    let mut report = Vec::new(alloc);
    let count = put_all(registry, alloc, revocations, &mut report)?;
    put_total(&mut report, count, version)?;
    Ok(report)
}

/// The response with the table.
pub(crate) fn to_table<R: Registry>(registry: &mut R, alloc: Global) -> Result<Vec<u8>, StoreFault>
    ensures preserves { Preserves R.is_honest R.is_open R.is_as_before R.means registry.old registry.new }
    ensures stays_open { R.is_honest registry.new → OnOk result (R.is_open registry.new) }
    ensures row { R.is_honest registry.new → AnswersBy R.means registry.old result
        (λ o l v. v.items ≡ response_text 200 PlainText (table_report (state o l))) }
    ensures form { IfOk result (λ v. MayShow resource.Table v.items) }
    ensures cause { R.is_honest registry.new → IfErr result (λ e. HasRegisterCause e
        (FailsAfter R.is_open R.is_as_before R.means R.fails registry.old registry.new)) }
    ensures only { R.is_honest registry.new → FailsAsARegister R.means registry.old result }
{
    let version = registry.revoked(alloc)?.head.version;
    let revocations = registry.revocations(alloc)?;
    let report = table_beside(registry, alloc, &revocations, version)?;
    around(report, MediaType::PlainText)
}
