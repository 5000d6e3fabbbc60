//! Departments.

ghost use Rattle.std.specs.Prelude.{◌≡◌, IfOk, map};
ghost use Rattle.text.specs.Results.{or_fault};
ghost use Rattle.message.specs.Ends.{ends_of};
ghost use Rattle.message.specs.Parts.{body_after, body_in, department_with, profile_in};
ghost use Rattle.message.specs.Reading.{Gives, department_in, kind_of_line, line_of, made};
ghost use Rattle.message.specs.declared.kinds.Message.TheVariants as message;
ghost use Rattle.message.specs.Values.{fits_bare_name, fits_kind, has_bare_name};

use crate::department_ends::{Ends, ends_in};
use crate::kinds::Message;
use crate::line::line;
use crate::lists::{ListKind, TextKind, list_in};
use crate::message_fault::MessageFault;
use crate::value::text_after;
use std::alloc::Global;
use text::{NoMemory, Pairs, Text, Texts, both};
use values::Kind;

/// A department: an issuance policy. Its profile restricts the certificates that may be issued.
#[derive(Drop)]
pub struct Department {
    /// 1 to 32 bytes of `a-z 0-9 -`.
    pub name: Text,
    /// Fixed permanently once the department exists.
    pub kind: Kind,
    /// 0 to 16 distinct names of callers, or words with `{name}`.
    pub administrators: Texts,
    /// 1 to 16 distinct rules.
    pub rules: Texts,
    /// The names of the permitted critical options. None for hosts.
    pub options: Texts,
    /// The critical options that each certificate must have, 0 to 3 in the order of their names: each with the value
    /// that it must have or, if that is empty, with any. None for hosts.
    pub demands: Pairs,
    /// The names of the permitted extensions. None for hosts.
    pub extensions: Texts,
    /// The names of the permitted key types, 1 to 7 distinct ones; none if only `ssh-ed25519` is permitted.
    pub key_types: Texts,
    /// The longest lifetime of a certificate in seconds, 1 to 253402300799.
    pub longest_life: u64,
    /// 0 to 8 distinct namespaces of signatures. None for hosts.
    pub namespaces: Texts,
}

/// The administrators, rules and options, and what stands after them.
type Body = ((Texts, Texts), (Texts, Ends));

/// The kind, and all that is on the lines after it.
type Profile = (Kind, Body);

impl Department {
    /// A copy of what stands after the options, in new memory.
    fn ends(&self, alloc: Global) -> Result<Ends, NoMemory>
        ensures { IfOk result (λ e. e ≡ ends_of self.now) }
    {
        let extras = both(self.demands.copied(alloc), self.extensions.copied(alloc));
        let limits = both(Ok(self.longest_life), self.namespaces.copied(alloc));
        both(extras, both(self.key_types.copied(alloc), limits))
    }

    /// A copy, in new memory.
    ///
    /// # Errors
    ///
    /// `NoMemory`, if an allocation was refused.
    pub fn copied(&self, alloc: Global) -> Result<Department, NoMemory>
        ensures { IfOk result (λ d. d ≡ self.now) }
    {
        let people = both(self.administrators.copied(alloc), self.rules.copied(alloc));
        let last = both(self.options.copied(alloc), self.ends(alloc));
        let profile = both(Ok(self.kind), both(people, last));
        match both(self.name.copied(alloc), profile) {
            Ok((name, profile)) => Ok(department_of(name, profile)),
            Err(refused) => Err(refused),
        }
    }
}

/// The kind on line 2.
fn kind_in(pieces: &[&[u8]]) -> Result<Kind, MessageFault>
    ensures { Gives result (or_fault 2 (kind_of_line (line_of 2 (map (λ x. x.now) pieces.now)))) }
{
    let line = line(pieces, 2);
    if line == b"kind user".as_slice() {
        Ok(Kind::User)
    } else if line == b"kind host".as_slice() {
        Ok(Kind::Host)
    } else {
        Err(MessageFault::BadLine(2))
    }
}

/// Whether a department of this kind may have the list: for hosts, only an empty one.
pub fn fits_kind(kind: Kind, texts: &[Text]) -> bool
    ensures { result ≡ fits_kind kind texts.now }
{
    match kind {
        Kind::User => true,
        Kind::Host => texts.is_empty(),
    }
}

/// Whether one of the rules is `{name}` alone.
pub fn has_bare_name(rules: &Texts) -> bool
    ensures { result ≡ has_bare_name rules.now }
{
    rules.contains(b"{name}".as_slice())
}

/// Whether a department may have the list of namespaces: an empty one, if `{name}` alone is one of its rules.
pub fn fits_bare_name(bare: bool, texts: &[Text]) -> bool
    ensures { result ≡ fits_bare_name bare texts.now }
{
    match bare {
        true => texts.is_empty(),
        false => true,
    }
}

/// The administrators and the rules, with what is in the lines from line 5 on.
fn body_after(
    alloc: Global,
    pieces: &[&[u8]],
    kind: Kind,
    people: (Texts, Texts),
) -> Result<Body, MessageFault>
    ensures { Gives result (body_after kind people (map (λ x. x.now) pieces.now)) }
{
    let bare = has_bare_name(&people.1);
    let last = both(
        list_in(alloc, pieces, 5, ListKind::OptionsOf(kind)),
        ends_in(alloc, pieces, kind, bare),
    );
    both(Ok(people), last)
}

/// What is in the lines from line 3 on.
fn body_in(alloc: Global, pieces: &[&[u8]], kind: Kind) -> Result<Body, MessageFault>
    ensures { Gives result (body_in kind (map (λ x. x.now) pieces.now)) }
{
    let administrators = list_in(alloc, pieces, 3, ListKind::Administrators);
    let rules = list_in(alloc, pieces, 4, ListKind::Rules);
    match both(administrators, rules) {
        Ok(people) => body_after(alloc, pieces, kind, people),
        Err(fault) => Err(fault),
    }
}

/// The profile in the lines from line 2 on.
fn profile_in(alloc: Global, pieces: &[&[u8]]) -> Result<Profile, MessageFault>
    ensures { Gives result (profile_in (map (λ x. x.now) pieces.now)) }
{
    let kind = kind_in(pieces)?;
    both(Ok(kind), body_in(alloc, pieces, kind))
}

/// The department with this name and this profile.
fn department_of(name: Text, profile: Profile) -> Department
    ensures { result ≡ department_with name profile }
{
    let (kind, ((administrators, rules), (options, ends))) = profile;
    let ((demands, extensions), (key_types, (longest_life, namespaces))) = ends;
    Department {
        name,
        kind,
        administrators,
        rules,
        options,
        demands,
        extensions,
        key_types,
        longest_life,
        namespaces,
    }
}

/// The department with these lines.
pub(crate) fn department_in(alloc: Global, pieces: &[&[u8]]) -> Result<Message, MessageFault>
    ensures { Gives result (made (λ x. message.Department x) (department_in (map (λ x. x.now) pieces.now))) }
{
    let name = text_after(alloc, pieces, 1, b"department ", TextKind::Name);
    match both(name, profile_in(alloc, pieces)) {
        Ok((name, profile)) => Ok(Message::Department(department_of(name, profile))),
        Err(fault) => Err(fault),
    }
}
