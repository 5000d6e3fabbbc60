//! The list's writer.

ghost use Rattle.std.specs.Prelude.{◌≡◌, ◌≤◌, ◌<◌, ◌^◌, ◌+◌, ◌++◌, ◌∷◌, [], All, List, ℕ, length};
ghost use Rattle.std.specs.Prelude.{true, IsTrue, OnOk, OnErr, IsOk, if◌then◌else◌, is_ok};
ghost use Rattle.std.specs.List.{sum_by, flat_map};
ghost use Rattle.std.specs.Io.KnownBytes.{Appends};
ghost use Rattle.wire.specs.Streams.{AppendsBeginning};
ghost use Rattle.wire.specs.Texts.{string_text, u32_text, u64_text};
ghost use Rattle.lines.specs.Writing.{Writes};
ghost use Rattle.krl.specs.Sets.{AreRuns};
ghost use Rattle.krl.specs.Format.{header_text, part_text, section_data, section_text};
ghost use Rattle.krl.specs.Published.{ca_section, key_id_parts, listed, published_header, AreOnly};
ghost use Rattle.krl.specs.Published.{AreShortest, RevokesExactly, AreDistinctCas, fits, part_fits};
ghost use Rattle.krl.specs.Published.{published_length, composed_list, published_sections};
ghost use Rattle.krl.specs.Published.{published_text, sections_of, serial_list, serial_parts};
ghost use Rattle.krl.specs.Lengths.{key_id_length, listed_length, listed_text, range_text};

use crate::lengths::{is_idle_part, key_ids_len, listed_len, section_data_len};
use krl::{CERTIFICATES, CaPart, KEY_ID_LIST, KrlHead, Run, SERIAL_LIST, SERIAL_RANGE};
use lines::{OutFault, key_blob_of};
use text::{Text, Texts};
use wire::{Failed, Sink, write_all};

fn write_piece<W: Sink>(piece: &[u8], sink: &mut W) -> Result<(), Failed>
    requires { W.failed sink.old < u64.MAX }
    ensures { Writes W.taken W.failed W.room sink.old sink.new (is_ok result) piece.now }
{
    write_all(sink, piece)
}

fn write_u64<W: Sink>(number: u64, sink: &mut W) -> Result<(), Failed>
    requires { W.failed sink.old < u64.MAX }
    ensures { Writes W.taken W.failed W.room sink.old sink.new (is_ok result) (u64_text number) }
{
    write_piece(&number.to_be_bytes(), sink)
}

fn write_u32<W: Sink>(number: u32, sink: &mut W) -> Result<(), Failed>
    requires { W.failed sink.old < u64.MAX }
    ensures { Writes W.taken W.failed W.room sink.old sink.new (is_ok result) (u32_text number) }
{
    write_piece(&number.to_be_bytes(), sink)
}

fn write_string<W: Sink>(string: &[u8], sink: &mut W) -> Result<(), Failed>
    requires writer { W.failed sink.old < u64.MAX }
    requires short { length string.now < 2 ^ 32 }
    ensures { Writes W.taken W.failed W.room sink.old sink.new (is_ok result) (string_text string.now) }
{
    write_u32(string.len() as u32, sink)?;
    write_piece(string, sink)
}

// The type and the length of a section or a part.
fn write_tag<W: Sink>(kind: u8, len: u32, sink: &mut W) -> Result<(), Failed>
    requires { W.failed sink.old < u64.MAX }
    ensures { Writes W.taken W.failed W.room sink.old sink.new (is_ok result) (kind ∷ u32_text len) }
{
    write_piece(&[kind], sink)?;
    write_u32(len, sink)
}

fn write_header<W: Sink>(head: &KrlHead, sink: &mut W) -> Result<(), Failed>
    requires { W.failed sink.old < u64.MAX }
    ensures written { Writes W.taken W.failed W.room sink.old sink.new (is_ok result)
        (header_text (published_header head.now)) }
    ensures version { OnOk result (head.now.version < 2 ^ 64) }
    ensures date { OnOk result (head.now.date < 2 ^ 64) }
{
    write_piece(b"SSHKRL\n\0\0\0\0\x01", sink)?;
    write_u64(head.version, sink)?;
    write_u64(head.date, sink)?;
    write_piece(&[0; 16], sink)?;
    Ok(())
}

// The serials of a short run.
fn write_short<W: Sink>(run: Run, sink: &mut W) -> Result<(), Failed>
    requires { W.failed sink.old < u64.MAX }
    ensures { Writes W.taken W.failed W.room sink.old sink.new (is_ok result) (listed_text run) }
{
    if !run.is_short() {
        return Ok(());
    }
    if run.lo == run.hi {
        return write_u64(run.lo, sink);
    }
    write_u64(run.lo, sink)?;
    write_u64(run.hi, sink)
}

fn write_listed<W: Sink>(runs: &[Run], sink: &mut W) -> Result<(), Failed>
    requires { W.failed sink.old < u64.MAX }
    ensures { Writes W.taken W.failed W.room sink.old sink.new (is_ok result) (flat_map listed_text runs.now) }
{
    for run in runs {
        write_short(*run, sink)?;
    }
    Ok(())
}

// The list of the serials of the short runs, if there are any.
fn write_serial_list<W: Sink>(runs: &[Run], sink: &mut W) -> Result<(), Failed>
    requires writer { W.failed sink.old < u64.MAX }
    requires fits { sum_by listed_length runs.now ≤ 4294967295 }
    ensures { Writes W.taken W.failed W.room sink.old sink.new (is_ok result)
        (flat_map part_text (serial_list (listed runs.now))) }
{
    let len = listed_len(runs).unwrap();
    if len == 0 {
        return Ok(());
    }
    write_tag(SERIAL_LIST, len as u32, sink)?;
    write_listed(runs, sink)
}

// The range of a long run.
fn write_long<W: Sink>(run: Run, sink: &mut W) -> Result<(), Failed>
    requires { W.failed sink.old < u64.MAX }
    ensures { Writes W.taken W.failed W.room sink.old sink.new (is_ok result) (range_text run) }
{
    if run.is_short() {
        return Ok(());
    }
    write_tag(SERIAL_RANGE, 16, sink)?;
    write_u64(run.lo, sink)?;
    write_u64(run.hi, sink)
}

fn write_ranges<W: Sink>(runs: &[Run], sink: &mut W) -> Result<(), Failed>
    requires { W.failed sink.old < u64.MAX }
    ensures { Writes W.taken W.failed W.room sink.old sink.new (is_ok result) (flat_map range_text runs.now) }
{
    for run in runs {
        write_long(*run, sink)?;
    }
    Ok(())
}

fn write_ids<W: Sink>(ids: &[Text], sink: &mut W) -> Result<(), Failed>
    requires writer { W.failed sink.old < u64.MAX }
    requires fits { sum_by key_id_length ids.now ≤ 4294967295 }
    ensures { Writes W.taken W.failed W.room sink.old sink.new (is_ok result) (flat_map string_text ids.now) }
{
    for id in ids {
        write_string(id.as_slice(), sink)?;
    }
    Ok(())
}

// The list of the key ids, if there are any.
fn write_key_ids<W: Sink>(ids: &[Text], sink: &mut W) -> Result<(), Failed>
    requires writer { W.failed sink.old < u64.MAX }
    requires fits { sum_by key_id_length ids.now ≤ 4294967295 }
    ensures { Writes W.taken W.failed W.room sink.old sink.new (is_ok result)
        (flat_map part_text (key_id_parts ids.now)) }
{
    if ids.is_empty() {
        return Ok(());
    }
    let len = key_ids_len(ids).unwrap();
    write_tag(KEY_ID_LIST, len as u32, sink)?;
    write_ids(ids, sink)
}

// The parts of a CA's section.
fn write_parts<W: Sink>(runs: &[Run], ids: &[Text], sink: &mut W) -> Result<(), Failed>
    requires writer { W.failed sink.old < u64.MAX }
    requires serials { sum_by listed_length runs.now ≤ 4294967295 }
    requires key_ids { sum_by key_id_length ids.now ≤ 4294967295 }
    ensures { Writes W.taken W.failed W.room sink.old sink.new (is_ok result)
        (flat_map part_text (serial_parts runs.now ++ key_id_parts ids.now)) }
{
    write_serial_list(runs, sink)?;
    write_ranges(runs, sink)?;
    write_key_ids(ids, sink)
}

// The data of a CA's section.
#[tactic(auto, using(krl::proofs::LengthLaws::within_data))]
fn write_data<W: Sink>(part: &CaPart, ids: &[Text], sink: &mut W) -> Result<(), Failed>
    requires writer { W.failed sink.old < u64.MAX }
    requires fits { length (section_data (ca_section ids.now part.now)) ≤ 4294967295 }
    ensures { Writes W.taken W.failed W.room sink.old sink.new (is_ok result)
        (section_data (ca_section ids.now part.now)) }
{
    write_string(&key_blob_of(&part.ca), sink)?;
    write_string(b"", sink)?;
    write_parts(part.runs.runs(), ids, sink)
}

// A CA's section.
fn write_section<W: Sink>(part: &CaPart, ids: &[Text], sink: &mut W) -> Result<(), Failed>
    requires writer { W.failed sink.old < u64.MAX }
    requires fits { length (section_data (ca_section ids.now part.now)) ≤ 4294967295 }
    ensures { Writes W.taken W.failed W.room sink.old sink.new (is_ok result)
        (section_text (ca_section ids.now part.now)) }
{
    let len = section_data_len(part, ids).unwrap();
    write_tag(CERTIFICATES, len as u32, sink)?;
    write_data(part, ids, sink)
}

// The section of a CA, if it has one.
fn write_part<W: Sink>(part: &CaPart, ids: &[Text], sink: &mut W) -> Result<(), Failed>
    requires writer { W.failed sink.old < u64.MAX }
    requires fits { IsTrue (part_fits ids.now part.now) }
    ensures written { Writes W.taken W.failed W.room sink.old sink.new (is_ok result)
        (flat_map section_text (sections_of ids.now part.now)) }
    ensures lawful { AreRuns part.now.runs }
{
    if is_idle_part(part, ids) {
        return Ok(());
    }
    write_section(part, ids, sink)
}

fn write_sections<W: Sink>(parts: &[CaPart], ids: &[Text], sink: &mut W) -> Result<(), Failed>
    requires writer { W.failed sink.old < u64.MAX }
    requires fits { IsTrue (fits parts.now ids.now) }
    ensures written { Writes W.taken W.failed W.room sink.old sink.new (is_ok result)
        (flat_map section_text (published_sections parts.now ids.now)) }
    ensures lawful { OnOk result (All (λ p. AreRuns p.runs) parts.now) }
{
    for part in parts {
        write_part(part, ids, sink)?;
    }
    Ok(())
}

fn write_list<W: Sink>(
    head: &KrlHead,
    parts: &[CaPart],
    ids: &[Text],
    sink: &mut W,
) -> Result<(), Failed>
    requires writer { W.failed sink.old < u64.MAX }
    requires fits { IsTrue (fits parts.now ids.now) }
    ensures written { Writes W.taken W.failed W.room sink.old sink.new (is_ok result)
        (published_text head.now parts.now ids.now) }
    ensures version { OnOk result (head.now.version < 2 ^ 64) }
    ensures date { OnOk result (head.now.date < 2 ^ 64) }
    ensures lawful { OnOk result (All (λ p. AreRuns p.runs) parts.now) }
{
    write_header(head, sink)?;
    write_sections(parts, ids, sink)?;
    Ok(())
}

/// Writes a key revocation list (OpenSSH PROTOCOL.krl): a header, and a section for each CA that has revoked serials,
/// or for every CA once a key id is revoked. In a section, one list has the serials of the runs of one or two serials,
/// each longer run is a range, and one list has the key ids, in the given order. It allocates no memory, and writes
/// many small pieces: let the writer buffer them.
///
/// No section's data may have more than 4294967295 bytes, which `krl_len` tests. Two parts of one CA become two
/// sections.
///
/// # Errors
///
/// `Write`, if and only if the writer failed in this call. The writer then took a prefix of the list.
pub fn write_krl<W: Sink>(
    head: &KrlHead,
    parts: &[CaPart],
    ids: &Texts,
    sink: &mut W,
) -> Result<(), OutFault>
    requires writer { W.failed sink.old < u64.MAX }
    requires fits { IsTrue (fits parts.now ids.now) }

    ensures ok { OnOk result
        (Appends (W.taken sink.old) (W.taken sink.new) (published_text head.now parts.now ids.now)) }
    ensures err { OnErr result
        (AppendsBeginning (W.taken sink.old) (W.taken sink.new) (published_text head.now parts.now ids.now)) }
    ensures failed { W.failed sink.new ≡ (if is_ok result then W.failed sink.old else W.failed sink.old + 1) }

    // A writer that has the room doesn't fail.
    ensures sure { published_length parts.now ids.now ≤ W.room sink.old → IsOk result }

    // The text has the length that `krl_len` returns.
    ensures len { length (published_text head.now parts.now ids.now) ≡ published_length parts.now ids.now }

    // It can be divided in only one way, as a supported list.
    ensures one_cut { OnOk result
        (AreOnly (published_text head.now parts.now ids.now) (composed_list head.now parts.now ids.now)) }

    // It revokes exactly the given serials and key ids, each under its CA.
    ensures exact { AreDistinctCas parts.now
        → OnOk result (RevokesExactly (composed_list head.now parts.now ids.now) parts.now ids.now) }

    // No other lists and ranges of serials that name the same set are shorter.
    ensures shortest { OnOk result (All (λ p. AreShortest (serial_parts p.runs) p.runs) parts.now) }
{
    write_list(head, parts, ids.as_slice(), sink)?;
    Ok(())
}
