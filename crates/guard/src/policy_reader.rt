//! Reading policy files.

ghost use Rattle.std.specs.Prelude.{◌≡◌, ◌≤◌, ◌<◌, ◌∷◌, ◌++◌, ◌^◌, [], IfOk, OnOk, length, map, Err};
ghost use Rattle.guard.specs.declared.policy_fault.PolicyFault.TheVariants as PolicyFault;
ghost use Rattle.message.specs.Reading.{message_at};
ghost use Rattle.guard.specs.Policies.{
  Gives,
  behind,
  department_at,
  department_in,
  is_between,
  policy_at,
  is_last,
  policy_from,
  text_of,
  text_size,
};

use crate::policy::{LONGEST_POLICY, Policy, named};
use crate::policy_fault::PolicyFault;
use message::{Department, Message, MessageFault, read_message};
use std::alloc::Global;
use text::{NoMemory, Text, cut};

fn is_between(line: &[u8]) -> bool
    ensures { result ≡ is_between line.now }
{
    match line {
        [] => true,
        [first, ..] => *first == b'#',
    }
}

/// Appends a piece of a file, and a line feed if pieces follow.
fn put_piece(text: &mut Vec<u8>, piece: &[u8], rest: &[&[u8]]) -> Result<(), NoMemory>
    ensures { OnOk result (text.new.items ≡ text.old.items ++ (piece.now ++ behind (map (λ x. x.now) rest.now) [])) }
{
    text.extend_from_slice(piece)?;
    if !rest.is_empty() {
        text.push(b'\n')?;
    }
    Ok(())
}

/// Whether this is the last line of a department's text: the one of its namespaces.
fn is_last(line: &[u8]) -> bool
    ensures { result ≡ is_last line.now }
{
    line.starts_with(b"namespaces")
}

/// How many lines the text has that begins here: those up to the first that is the last of a text, or else all.
fn text_size(pieces: &[&[u8]]) -> usize
    ensures size { result ≡ text_size (map (λ x. x.now) pieces.now) }
    ensures within { result ≤ length pieces.now }
{
    let mut size: usize = 0;
    for piece in pieces {
        size += 1;
        if is_last(piece) {
            return size;
        }
    }
    size
}

/// The text of the next `size` lines, or of the remaining ones if there are fewer.
#[tactic(auto, using(crate::proofs::PolicyLines::text_whole))]
fn text_of(alloc: Global, pieces: &[&[u8]], size: usize) -> Result<Text, NoMemory>
    ensures text { IfOk result (λ text. text ≡ text_of size (map (λ x. x.now) pieces.now)) }
    ensures size { IfOk result (λ text. length text < 2 ^ 63) }
{
    let mut text = Vec::new(alloc);
    let mut rest = pieces;
    for _line in 0..size {
        let [piece, after @ ..] = rest else {
            return Ok(Text::from_vec(text));
        };
        put_piece(&mut text, piece, after)?;
        rest = after;
    }
    Ok(Text::from_vec(text))
}

/// The department in a text whose first line has this number.
fn department_in(alloc: Global, number: u64, text: &[u8]) -> Result<Department, PolicyFault>
    requires number { (1 ≤ number) × (number < 2 ^ 62) }
    requires size { length text.now < 2 ^ 63 }
    ensures { Gives result (department_in number (message_at text.now)) }
{
    match read_message(alloc, text) {
        Ok(Message::Department(department)) => Ok(department),
        Ok(_) => Err(PolicyFault::BadPolicy(number)),
        Err(MessageFault::BadLine(line)) => Err(PolicyFault::BadPolicy(number - 1 + line)),
        Err(MessageFault::NoMemory) => Err(PolicyFault::NoMemory),
    }
}

/// The department in the text that begins with this line, if no known one has its name.
fn department_at(
    alloc: Global,
    number: u64,
    known: &[Department],
    pieces: &[&[u8]],
) -> Result<Department, PolicyFault>
    requires { (1 ≤ number) × (number < 2 ^ 62) }
    ensures { Gives result (department_at number known.now (map (λ x. x.now) pieces.now)) }
{
    let text = text_of(alloc, pieces, text_size(pieces))?;
    let department = department_in(alloc, number, text.as_slice())?;
    if named(known, department.name.as_slice()).is_some() {
        drop(department);
        return Err(PolicyFault::BadPolicy(number));
    }
    Ok(department)
}

fn push(departments: &mut Vec<Department>, department: Department) -> Result<(), NoMemory>
    ensures { OnOk result (departments.new.items ≡ departments.old.items ++ department ∷ []) }
{
    departments.push(department)?;
    Ok(())
}

/// The departments in a file's lines.
fn departments_in(alloc: Global, pieces: &[&[u8]]) -> Result<Policy, PolicyFault>
    requires { length pieces.now < 2 ^ 62 }
    ensures { Gives result (policy_from 0 1 [] (map (λ x. x.now) pieces.now)) }
{
    let mut departments = Vec::new(alloc);
    let mut rest = pieces;
    let mut number: u64 = 1;
    let mut left: usize = 0;
    while let [piece, after @ ..] = rest {
        if 0 < left {
            left -= 1;
        } else if !is_between(piece) {
            let department = department_at(alloc, number, departments.as_slice(), rest)?;
            push(&mut departments, department)?;
            left = text_size(rest) - 1;
        }
        rest = after;
        number += 1;
    }
    Ok(Policy::of(departments))
}

impl Policy {
    /// Reads a policy: texts of departments in the form of a request, with empty lines and lines that begin with `#`
    /// between them. No two have the same name, and there may be none.
    ///
    /// # Errors
    ///
    /// `TooLong` for more than 1048576 bytes. `BadPolicy(n)`: line n of the file is the one that `read_message` reports
    /// in the first text that isn't a message, or the first line of a text that isn't a department's, or of the second
    /// department with the same name.
    pub fn read(alloc: Global, bytes: &[u8]) -> Result<Policy, PolicyFault>
        // The result is what reading line by line gives.
        ensures exact { length bytes.now ≤ 1048576 → Gives result (policy_at bytes.now) }

        // The result for a file that is too long is `TooLong`.
        ensures limit { 1048576 < length bytes.now → result ≡ Err PolicyFault.TooLong }
    {
        if LONGEST_POLICY < bytes.len() {
            return Err(PolicyFault::TooLong);
        }
        let pieces = cut(alloc, bytes, b'\n')?;
        departments_in(alloc, pieces.as_slice())
    }
}
