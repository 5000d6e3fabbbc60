//! Issues: requests for a certificate.

ghost use Rattle.std.specs.Prelude.{◌≡◌, ◌≤◌, IfOk, length, map, []};
ghost use Rattle.message.specs.Reading.{Gives, issue_in, made, options_from};
ghost use Rattle.message.specs.Parts.{extras_in, issue_of};
ghost use Rattle.message.specs.declared.kinds.Message.TheVariants as message;

use crate::kinds::Message;
use crate::line::{ends_after, line};
use crate::lists::{ListKind, TextKind, list_in};
use crate::message_fault::MessageFault;
use crate::option::option_after;
use crate::value::{end_after, subject_line_after, text_after};
use lines::SubjectLine;
use std::alloc::Global;
use text::{NoMemory, Pairs, Text, Texts, both};

/// A requested certificate.
#[derive(Drop)]
pub struct Issue {
    /// The name of the department.
    pub department: Text,
    /// A department's name, `/` and 1 to 64 bytes from 0x21 to 0x7e.
    pub key_id: Text,
    /// The subject's public key, with the comment on its line.
    pub key: SubjectLine,
    /// 1 to 16 distinct principals.
    pub principals: Texts,
    /// The first second of the validity, since 1970-01-01 00:00:00 UTC.
    pub after: u64,
    /// The first second after the validity.
    pub before: u64,
    /// 0 to 3 critical options with distinct names, in the order given.
    pub options: Pairs,
    /// Distinct names of extensions, in the order given.
    pub extensions: Texts,
}

/// The department and the key ID, the key and the principals.
type Subject = ((Text, Text), (SubjectLine, Texts));

/// The validity, the options and the extensions.
type Terms = ((u64, u64), (Pairs, Texts));

/// The options on up to three lines from line 7 on.
fn options_in(alloc: Global, pieces: &[&[u8]]) -> Result<Pairs, NoMemory>
    ensures read { IfOk result (λ o. o ≡ options_from 3 7 [] (map (λ x. x.now) pieces.now)) }
    ensures few { IfOk result (λ o. length o ≤ 3) }
{
    let mut options = Pairs::new(alloc);
    for n in 7..10 {
        let Some(option) = option_after(alloc, &options, line(pieces, n))? else {
            return Ok(options);
        };
        options.push(option)?;
    }
    Ok(options)
}

/// The options and the extensions on the lines from line 7 on.
#[tactic(auto, unfolding(crate::specs::Parts::extras_in))]
fn extras_in(alloc: Global, pieces: &[&[u8]]) -> Result<(Pairs, Texts), MessageFault>
    ensures { Gives result (extras_in (map (λ x. x.now) pieces.now)) }
{
    let options = options_in(alloc, pieces)?;
    let last = 7 + options.as_slice().len();
    let extensions = list_in(alloc, pieces, last, ListKind::Extensions)?;
    if !ends_after(pieces, last) {
        return Err(MessageFault::BadLine(last as u64 + 1));
    }
    Ok((options, extensions))
}

/// The issue from the values of lines 1 to 4 and of the lines from line 5 on.
fn issue_of(subject: Subject, terms: Terms) -> Issue
    ensures { result ≡ issue_of subject terms }
{
    let ((department, key_id), (key, principals)) = subject;
    let ((after, before), (options, extensions)) = terms;
    Issue {
        department,
        key_id,
        key,
        principals,
        after,
        before,
        options,
        extensions,
    }
}

/// The issue with these lines.
pub(crate) fn issue_in(alloc: Global, pieces: &[&[u8]]) -> Result<Message, MessageFault>
    ensures { Gives result (made (λ x. message.Issue x) (issue_in (map (λ x. x.now) pieces.now))) }
{
    let names = both(
        text_after(alloc, pieces, 1, b"issue ", TextKind::Name),
        text_after(alloc, pieces, 2, b"keyid ", TextKind::KeyId),
    );
    let holder = both(
        subject_line_after(alloc, pieces, 3, b"key "),
        list_in(alloc, pieces, 4, ListKind::Principals),
    );
    let validity = both(
        end_after(pieces, 5, b"after "),
        end_after(pieces, 6, b"before "),
    );
    let subject = both(names, holder);
    let terms = both(validity, extras_in(alloc, pieces));
    match both(subject, terms) {
        Ok((subject, terms)) => Ok(Message::Issue(issue_of(subject, terms))),
        Err(fault) => Err(fault),
    }
}
