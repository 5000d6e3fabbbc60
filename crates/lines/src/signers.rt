//! Writing allowed signers.

ghost use Rattle.std.specs.Prelude.{◌≡◌, ◌≤◌, ◌<◌, ◌+◌, ◌++◌, ◌∷◌, [], length};
ghost use Rattle.std.specs.Prelude.{codes, IsOk, OnOk, OnErr, if◌then◌else◌, is_ok};
ghost use Rattle.std.specs.Io.KnownBytes.{Appends};
ghost use Rattle.wire.specs.Streams.{AppendsBeginning};
ghost use Rattle.base64.specs.Engines.{standard};
ghost use Rattle.base64.specs.GeneralPurpose.{encode_of};
ghost use Rattle.lines.specs.Keys.{key_blob};
ghost use Rattle.lines.specs.KeyLines.{key_line_head};
ghost use Rattle.lines.specs.Signers.{list_text, others_text, signer_text, signers_text};
ghost use Rattle.lines.specs.Writing.{Writes};

use crate::writing::bare_key_line;
use text::{Text, Texts};
use wire::{Failed, Sink, write_all};

/// A line of allowed signers: a CA, and the principals and namespaces that it is trusted for.
#[derive(Drop)]
pub struct SignerRow {
    /// The patterns of the principals.
    pub rules: Texts,
    /// The namespaces of signatures.
    pub namespaces: Texts,
    /// The 32 bytes of the CA's public key.
    pub ca: [u8; 32],
}

/// Why a text was not written to its end.
#[derive(Clone, Copy, Debug, PartialEq, Eq)]
pub enum OutFault {
    /// The writer failed.
    Write,
}

impl From<Failed> for OutFault {
    ghost use Rattle.lines.specs.declared.signers.OutFault.TheVariants.{Write};

    ghost from_gives = { λ _ e. e ≡ Write };

    fn from(_e: Failed) -> OutFault {
        OutFault::Write
    }
}

// The end of a line, after the namespaces.
fn signer_end(ca: &[u8; 32]) -> [u8; 83]
    ensures { result ≡ codes "\" " ++ (key_line_head ++ (encode_of standard (key_blob ca.now) ++ 10 ∷ [])) }
{
    let mut end = [b'\n'; 83];
    end[..2].copy_from_slice(b"\" ");
    end[2..82].copy_from_slice(&bare_key_line(ca));
    end
}

fn write_piece<W: Sink>(piece: &[u8], sink: &mut W) -> Result<(), Failed>
    requires { W.failed sink.old < u64.MAX }
    ensures { Writes W.taken W.failed W.room sink.old sink.new (is_ok result) piece.now }
{
    write_all(sink, piece)
}

// A text in a list, with the comma before it.
fn write_other<W: Sink>(text: &Text, sink: &mut W) -> Result<(), Failed>
    requires { W.failed sink.old < u64.MAX }
    ensures { Writes W.taken W.failed W.room sink.old sink.new (is_ok result) (44 ∷ text.now) }
{
    write_piece(b",", sink)?;
    write_piece(text.as_slice(), sink)
}

fn write_others<W: Sink>(texts: &[Text], sink: &mut W) -> Result<(), Failed>
    requires { W.failed sink.old < u64.MAX }
    ensures { Writes W.taken W.failed W.room sink.old sink.new (is_ok result) (others_text texts.now) }
{
    for text in texts {
        write_other(text, sink)?;
    }
    Ok(())
}

fn write_list<W: Sink>(texts: &[Text], sink: &mut W) -> Result<(), Failed>
    requires { W.failed sink.old < u64.MAX }
    ensures { Writes W.taken W.failed W.room sink.old sink.new (is_ok result) (list_text texts.now) }
{
    let Some((first, others)) = texts.split_first() else {
        return Ok(());
    };
    write_piece(first.as_slice(), sink)?;
    write_others(others, sink)
}

fn write_signer<W: Sink>(row: &SignerRow, sink: &mut W) -> Result<(), Failed>
    requires { W.failed sink.old < u64.MAX }
    ensures { Writes W.taken W.failed W.room sink.old sink.new (is_ok result) (signer_text row.now) }
{
    write_list(row.rules.as_slice(), sink)?;
    write_piece(b" cert-authority,namespaces=\"", sink)?;
    write_list(row.namespaces.as_slice(), sink)?;
    write_piece(&signer_end(&row.ca), sink)
}

fn write_rows<W: Sink>(rows: &[SignerRow], sink: &mut W) -> Result<(), Failed>
    requires { W.failed sink.old < u64.MAX }
    ensures { Writes W.taken W.failed W.room sink.old sink.new (is_ok result) (signers_text rows.now) }
{
    for row in rows {
        write_signer(row, sink)?;
    }
    Ok(())
}

/// Writes allowed signers (ssh-keygen(1), "ALLOWED SIGNERS"), a line for each row, in order.
/// It allocates nothing.
///
/// # Errors
///
/// `Write`, exactly when the writer failed in this call. The writer then took a prefix of the text.
pub fn write_signers<W: Sink>(rows: &[SignerRow], sink: &mut W) -> Result<(), OutFault>
    requires { W.failed sink.old < u64.MAX }
    ensures ok { OnOk result (Appends (W.taken sink.old) (W.taken sink.new) (signers_text rows.now)) }
    ensures err { OnErr result (AppendsBeginning (W.taken sink.old) (W.taken sink.new) (signers_text rows.now)) }
    ensures failed { W.failed sink.new ≡ (if is_ok result then W.failed sink.old else W.failed sink.old + 1) }

    // A writer with enough room does not fail.
    ensures sure { length (signers_text rows.now) ≤ W.room sink.old → IsOk result }
{
    write_rows(rows, sink)?;
    Ok(())
}
