//! What stands in a department's text after its options.

ghost use Rattle.std.specs.Prelude.{◌≡◌, ◌≤◌, IfOk, codes, map};
ghost use Rattle.text.specs.Results.{or_fault};
ghost use Rattle.message.specs.Reading.{Gives, ends_in, limits_in, line_of, number_after};
ghost use Rattle.message.specs.Values.{is_longest_life};

use crate::demand::demands_in;
use crate::line::{ends_after, line, number_after};
use crate::lists::{ListKind, key_types_after, list_in};
use crate::message_fault::MessageFault;
use std::alloc::Global;
use text::{Pairs, Texts};
use values::{Kind, LONGEST_LIFE};

/// The longest lifetime and the namespaces.
pub(crate) type Limits = (u64, Texts);

/// The options that certificates must have, the extensions, the key types, the longest lifetime and the namespaces.
pub(crate) type Ends = ((Pairs, Texts), (Texts, Limits));

/// The longest lifetime on line `n`.
fn longest_life_in(pieces: &[&[u8]], n: usize) -> Result<u64, MessageFault>
    requires { 1 ≤ n }
    ensures { Gives result
        (or_fault n (number_after is_longest_life (codes "maxlife ") (line_of n (map (λ x. x.now) pieces.now)))) }
{
    match number_after(line(pieces, n), b"maxlife ") {
        Some(seconds) if 1 <= seconds && seconds <= LONGEST_LIFE => Ok(seconds),
        _ => Err(MessageFault::BadLine(n as u64)),
    }
}

/// The longest lifetime and the namespaces, on the last lines, from line `m` on.
#[tactic(auto, unfolding(crate::specs::Reading::limits_in))]
fn limits_in(
    alloc: Global,
    pieces: &[&[u8]],
    kind: Kind,
    bare: bool,
    m: usize,
) -> Result<Limits, MessageFault>
    requires { (1 ≤ m) × (m ≤ 60) }
    ensures { Gives result (limits_in kind bare m (map (λ x. x.now) pieces.now)) }
{
    let longest_life = longest_life_in(pieces, m)?;
    let namespaces = list_in(alloc, pieces, m + 1, ListKind::NamespacesOf(kind, bare))?;
    if !ends_after(pieces, m + 1) {
        return Err(MessageFault::BadLine(m as u64 + 2));
    }
    Ok((longest_life, namespaces))
}

/// What stands after the options, from line 6 on. `bare`: `{name}` alone is one of the rules.
#[tactic(auto, unfolding(crate::specs::Reading::ends_in))]
pub(crate) fn ends_in(
    alloc: Global,
    pieces: &[&[u8]],
    kind: Kind,
    bare: bool,
) -> Result<Ends, MessageFault>
    ensures { Gives result (ends_in kind bare (map (λ x. x.now) pieces.now)) }
{
    let demands = demands_in(alloc, pieces, kind)?;
    let n = 6 + demands.as_slice().len();
    let extensions = list_in(alloc, pieces, n, ListKind::ExtensionsOf(kind))?;
    match key_types_after(alloc, line(pieces, n + 1))? {
        Some(key_types) => {
            let limits = limits_in(alloc, pieces, kind, bare, n + 2)?;
            Ok(((demands, extensions), (key_types, limits)))
        }
        None => {
            let limits = limits_in(alloc, pieces, kind, bare, n + 1)?;
            Ok(((demands, extensions), (Texts::new(alloc), limits)))
        }
    }
}
