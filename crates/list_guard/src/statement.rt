//! Answers as lines of text.

ghost use Rattle.std.specs.Prelude.{◌≡◌, ◌++◌, OnOk};
ghost use Rattle.list_guard.specs.Statements.{answer_line, refused_line, statement_line};

use crate::judging::Answer;
use text::NoMemory;
use values::put_decimal;

/// Appends the statement of a list.
fn put_statement(
    out: &mut Vec<u8>,
    digest: &[u8],
    version: u64,
    moment: u64,
) -> Result<(), NoMemory>
    ensures { OnOk result (out.new.items ≡ out.old.items ++ statement_line digest.now version moment) }
{
    out.extend_from_slice(b"list ")?;
    out.extend_from_slice(digest)?;
    out.push(b' ')?;
    put_decimal(out, version)?;
    out.push(b' ')?;
    put_decimal(out, moment)?;
    out.push(b'\n')?;
    Ok(())
}

/// Appends the line of a refusal.
fn put_refused(out: &mut Vec<u8>, name: &[u8]) -> Result<(), NoMemory>
    ensures { OnOk result (out.new.items ≡ out.old.items ++ refused_line name.now) }
{
    out.extend_from_slice(b"refuse ")?;
    out.extend_from_slice(name)?;
    out.push(b'\n')?;
    Ok(())
}

/// Appends an answer as a line: the statement `list SHA256 VERSION TIME` of an approved list, or `refuse NAME`. The
/// time is in seconds since 1970-01-01 00:00:00 UTC.
///
/// # Errors
///
/// `NoMemory` if memory is refused. A part of the line may then have been appended.
pub fn put_answer(out: &mut Vec<u8>, answer: Answer, moment: u64) -> Result<(), NoMemory>
    ensures { OnOk result (out.new.items ≡ out.old.items ++ answer_line answer moment) }
{
    match answer {
        Answer::Approve { digest, version } => put_statement(out, &digest, version, moment),
        Answer::Refuse(refusal) => put_refused(out, refusal.name().as_bytes()),
    }
}
