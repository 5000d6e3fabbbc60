//! Pairs that are no options.

use cert::{OptionFault, Options};
use std::alloc::Global;
use text::{NoMemory, Pair, Pairs, Text};
use values::{Kind, OptionField};

/// Pairs with these names, all with one value.
fn pairs(alloc: Global, names: &[&[u8]], value: &[u8]) -> Result<Pairs, NoMemory> {
    let mut pairs = Pairs::new(alloc);
    for name in names {
        pairs.push(Pair {
            name: Text::from_slice(alloc, name)?,
            value: Text::from_slice(alloc, value)?,
        })?;
    }
    Ok(pairs)
}

/// A kind, a field, names, the value of each, and the expected fault, if any.
type Case = (
    Kind,
    OptionField,
    &'static [&'static [u8]],
    &'static [u8],
    Option<OptionFault>,
);

const CASES: [Case; 14] = [
    (Kind::User, OptionField::Extensions, &[], b"", None),
    (
        Kind::User,
        OptionField::Extensions,
        &[b"permit-pty"],
        b"",
        None,
    ),
    (
        Kind::User,
        OptionField::Extensions,
        &[b"permit-x"],
        b"",
        Some(OptionFault::Unknown),
    ),
    (
        Kind::User,
        OptionField::Extensions,
        &[b"verify-required"],
        b"",
        Some(OptionFault::Unknown),
    ),
    (
        Kind::User,
        OptionField::Extensions,
        &[b"permit-pty"],
        b"1",
        Some(OptionFault::BadValue),
    ),
    (
        Kind::User,
        OptionField::Extensions,
        &[b"permit-pty", b"permit-pty", b"permit-x"],
        b"",
        Some(OptionFault::Twice),
    ),
    (
        Kind::User,
        OptionField::CriticalOptions,
        &[b"source-address"],
        b"10.0.0.1/8",
        Some(OptionFault::BadValue),
    ),
    (
        Kind::User,
        OptionField::CriticalOptions,
        &[b"source-address"],
        b"10.0.0.0/8",
        None,
    ),
    (
        Kind::User,
        OptionField::CriticalOptions,
        &[b"force-command"],
        b"",
        Some(OptionFault::BadValue),
    ),
    (
        Kind::User,
        OptionField::CriticalOptions,
        &[b"permit-pty"],
        b"",
        Some(OptionFault::Unknown),
    ),
    (
        Kind::Host,
        OptionField::CriticalOptions,
        &[b"permit-x"],
        b"",
        Some(OptionFault::NotForHosts),
    ),
    (
        Kind::Host,
        OptionField::Extensions,
        &[b"permit-x"],
        b"",
        Some(OptionFault::NotForHosts),
    ),
    (Kind::Host, OptionField::CriticalOptions, &[], b"", None),
    (Kind::Host, OptionField::Extensions, &[], b"", None),
];

fn fault_of(alloc: Global, case: &Case) -> Option<OptionFault> {
    let (kind, field, names, value, _) = *case;
    match pairs(alloc, names, value) {
        Ok(pairs) => Options::build(alloc, kind, field, pairs.as_slice()).err(),
        Err(NoMemory) => Some(OptionFault::NoMemory),
    }
}

/// The index of the first case with a different fault, that fault, and the expected one.
fn first_other(
    alloc: Global,
    cases: &[Case],
) -> Option<(usize, Option<OptionFault>, Option<OptionFault>)> {
    for (place, case) in cases.iter().enumerate() {
        let seen = fault_of(alloc, case);
        if seen != case.4 {
            return Some((place, seen, case.4));
        }
    }
    None
}

#[test]
fn the_first_faulty_pair_is_named(rt: HostRuntime) {
    assert_eq!(rt; first_other(rt.alloc(), &CASES), None);
}
