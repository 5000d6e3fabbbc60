//! Answers as lines.

ghost use Rattle.std.specs.Prelude.{◌≡◌, ◌++◌, OnOk};
ghost use Rattle.guard.specs.AnswerLines.{answer_line, fault_name, field_name, signed_line, words_line};

use crate::body::BodyFault;
use crate::judging::Answer;
use cert::CertFault;
use text::NoMemory;
use values::put_decimal;

/// The name of a fault in a field of an unsigned certificate (body).
fn field_name(fault: CertFault) -> &'static str
    ensures { result.now ≡ field_name fault }
{
    match fault {
        CertFault::Truncated => "Truncated",
        CertFault::WrongType => "WrongType",
        CertFault::BadNonce => "BadNonce",
        CertFault::BadKey => "BadKey",
        CertFault::BadSerial => "BadSerial",
        CertFault::BadKind => "BadKind",
        CertFault::BadKeyId => "BadKeyId",
        CertFault::BadPrincipals => "BadPrincipals",
        CertFault::BadValidity => "BadValidity",
        CertFault::BadOptions => "BadOptions",
        CertFault::BadExtensions => "BadExtensions",
        CertFault::BadReserved => "BadReserved",
        CertFault::BadCa => "BadCa",
        CertFault::TrailingBytes => "TrailingBytes",
        CertFault::NoMemory => "NoMemory",
    }
}

impl BodyFault {
    /// The name that is printed in an answer.
    pub fn name(self) -> &'static str
        ensures { result.now ≡ fault_name self }
    {
        match self {
            BodyFault::TooLong => "TooLong",
            BodyFault::NotOfTheProfile(fault) => field_name(fault),
            BodyFault::NoMemory => "NoMemory",
        }
    }
}

/// Appends a line with two words.
fn put_words(out: &mut Vec<u8>, word: &[u8], other: &[u8]) -> Result<(), NoMemory>
    ensures { OnOk result (out.new.items ≡ out.old.items ++ words_line word.now other.now) }
{
    out.extend_from_slice(word)?;
    out.push(b' ')?;
    out.extend_from_slice(other)?;
    out.push(b'\n')?;
    Ok(())
}

/// Appends the line for a signed body.
fn put_signed(out: &mut Vec<u8>, serial: u64, digest: &[u8]) -> Result<(), NoMemory>
    ensures { OnOk result (out.new.items ≡ out.old.items ++ signed_line serial digest.now) }
{
    out.extend_from_slice(b"sign ")?;
    put_decimal(out, serial)?;
    out.push(b' ')?;
    out.extend_from_slice(digest)?;
    out.push(b'\n')?;
    Ok(())
}

/// Appends an answer as a line: `sign SERIAL DIGEST`, `refuse NAME`, or `refuse NotABody FAULT`.
///
/// # Errors
///
/// `NoMemory`, if an allocation was refused. Part of the line may then have been appended.
pub fn put_answer(out: &mut Vec<u8>, answer: Answer) -> Result<(), NoMemory>
    ensures { OnOk result (out.new.items ≡ out.old.items ++ answer_line answer) }
{
    match answer {
        Answer::Sign { serial, digest } => put_signed(out, serial, &digest),
        Answer::NotABody(fault) => put_words(out, b"refuse NotABody", fault.name().as_bytes()),
        Answer::Refuse(refusal) => put_words(out, b"refuse", refusal.name().as_bytes()),
    }
}
