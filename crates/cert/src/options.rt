//! Options of a certificate.

ghost use Rattle.std.specs.Prelude.{◌≡◌, ◌≤◌, List, [], Bool, length, IfOk, IsTrue, position};
ghost use Rattle.std.specs.List.{list_any, position_or_len};
ghost use Rattle.std.specs.Str.{bytes_eq};
ghost use Rattle.text.specs.declared.pair.Pair.{Pair};
ghost use Rattle.cert.specs.Options.{comes_before, is_ascending, is_options, listing};
ghost use Rattle.cert.specs.OptionFaults.{pair_fault, first_fault, options_fault, fault_answered};

use crate::option_fault::OptionFault;
use std::alloc::Global;
use std::cmp::Ordering;
use std::marker::Model;
use text::{NoMemory, Pair, Pairs};
use values::{Kind, OptionField, is_known, is_option_value};

/// A field of critical options or of extensions. Contracts see it as its pairs. Their names ascend strictly.
#[derive(Drop)]
pub struct Options {
    pairs: Pairs,
}

impl Model for Options {
    ghost use Rattle.std.specs.Prelude.{List};
    ghost use Rattle.text.specs.declared.pair.Pair.{Pair};
    ghost use Rattle.std.specs.Prelude.{IsTrue};
    ghost use Rattle.cert.specs.Options.{is_ascending};

    ghost Value = { List Pair };

    ghost view = { λ o. o.pairs };

    ghost invariant = { λ o. IsTrue (is_ascending o.pairs) };
}

fn has_name(pairs: &[Pair], name: &[u8]) -> bool
    ensures { result ≡ list_any (λ p. bytes_eq p.name name.now) pairs.now }
{
    pairs.iter().any(|p| p.name.is(name))
}

fn fault_of(field: OptionField, earlier: &[Pair], pair: &Pair) -> Option<OptionFault>
    ensures { result ≡ pair_fault field earlier.now pair.now }
{
    let name = pair.name.as_slice();
    if !is_known(field, name) {
        Some(OptionFault::Unknown)
    } else if has_name(earlier, name) {
        Some(OptionFault::Twice)
    } else if !is_option_value(name, pair.value.as_slice()) {
        Some(OptionFault::BadValue)
    } else {
        None
    }
}

fn first_fault_of(field: OptionField, pairs: &[Pair]) -> Option<OptionFault>
    ensures { result ≡ first_fault field [] pairs.now }
{
    for (i, pair) in pairs.iter().enumerate() {
        let fault = fault_of(field, &pairs[..i], pair);
        if fault.is_some() {
            return fault;
        }
    }
    None
}

/// Whether a name comes before another in byte order.
pub(crate) fn comes_before(name: &[u8], other: &[u8]) -> bool
    ensures { result ≡ comes_before name.now other.now }
{
    name.cmp(other) == Ordering::Less
}

fn first_after(name: &[u8], listed: &[Pair]) -> Option<usize>
    ensures { result ≡ position (λ p. comes_before name.now p.name) listed.now }
{
    listed
        .iter()
        .position(|p| comes_before(name, p.name.as_slice()))
}

/// The place of the first pair that comes after the name, or the end.
fn place_of(name: &[u8], listed: &[Pair]) -> usize
    ensures place { result ≡ position_or_len (λ p. comes_before name.now p.name) listed.now }
    ensures bound { result ≤ length listed.now }
{
    first_after(name, listed).unwrap_or(listed.len())
}

/// The fault of the pairs, if they have one.
fn judge(kind: Kind, field: OptionField, pairs: &[Pair]) -> Option<OptionFault>
    ensures { result ≡ options_fault field kind pairs.now }
{
    if kind == Kind::Host && !pairs.is_empty() {
        return Some(OptionFault::NotForHosts);
    }
    first_fault_of(field, pairs)
}

impl Options {
    /// The options that these pairs make in a field of a certificate of this kind. A flag's value has no bytes.
    ///
    /// The pairs may be in any order.
    ///
    /// # Errors
    ///
    /// `NotForHosts`, or else the fault of the first faulty pair: `Unknown`, `Twice` or `BadValue`, in this order.
    /// Memory is allocated only if the pairs have no fault.
    pub fn build(
        alloc: Global,
        kind: Kind,
        field: OptionField,
        pairs: &[Pair],
    ) -> Result<Options, OptionFault>
        ensures ok { IfOk result (λ o. o ≡ listing pairs.now) }
        ensures lawful { IfOk result (λ o. IsTrue (is_options field kind o)) }

        // It holds exactly the given pairs, and no other ascending list does.
        ensures same { IfOk result (λ o. (test : Pair → Bool) → list_any test o ≡ list_any test pairs.now) }
        ensures only { (ps : List Pair) → IsTrue (is_ascending ps)
            → ((test : Pair → Bool) → list_any test ps ≡ list_any test pairs.now) → IfOk result (λ o. o ≡ ps) }

        ensures fault { fault_answered result ≡ options_fault field kind pairs.now }
    {
        if let Some(fault) = judge(kind, field, pairs) {
            return Err(fault);
        }
        let mut listed = Vec::with_capacity(alloc, pairs.len())?;
        for pair in pairs {
            let place = place_of(pair.name.as_slice(), listed.as_slice());
            listed.insert(place, pair.copied(alloc)?)?;
        }
        Ok(Options {
            pairs: Pairs::from_vec(listed),
        })
    }

    // The options of pairs whose names ascend.
    pub(crate) fn from_pairs(pairs: Pairs) -> Options
        requires { IsTrue (is_ascending pairs) }
        ensures { result ≡ pairs }
    {
        Options { pairs }
    }

    /// No options. Allocates no memory.
    pub fn none(alloc: Global) -> Options
        ensures { result ≡ [] }
    {
        Options {
            pairs: Pairs::new(alloc),
        }
    }

    /// A copy.
    ///
    /// # Errors
    ///
    /// `NoMemory`, if an allocation was refused.
    pub fn copied(&self, alloc: Global) -> Result<Options, NoMemory>
        ensures { IfOk result (λ o. o ≡ self.now) }
    {
        Ok(Options {
            pairs: self.pairs.copied(alloc)?,
        })
    }

    /// The pairs, strictly ascending by name. A flag's value has no bytes.
    pub fn pairs(&self) -> &[Pair]
        ensures kept { result.now ≡ self.now }
        ensures ascending { IsTrue (is_ascending result.now) }
    {
        self.pairs.as_slice()
    }
}
