//! Bytes that aren't an unsigned certificate (body).

use cert::{CertFault, read_body};
use std::alloc::Global;
use text::NoMemory;

/// The body with a key of bytes 0x22, a nonce of 0x33 and a CA of 0x11: serial 1, a user, key ID web/alice, principal
/// alice, valid from 1000 to 2000.
const PLAIN: &[u8; 229] =
    b"\x00\x00\x00 ssh-ed25519-cert-v01@openssh.com\x00\x00\x00 33333333333333333333333333333333\x00\x00\x00\
    \x20\"\"\"\"\"\"\"\"\"\"\"\"\"\"\"\"\"\"\"\"\"\"\"\"\"\"\"\"\"\"\"\"\x00\x00\x00\x00\x00\x00\x00\x01\
    \x00\x00\x00\x01\x00\x00\x00\x09web/alice\x00\x00\x00\x09\x00\x00\x00\x05alice\x00\x00\x00\x00\x00\x00\
    \x03\xe8\x00\x00\x00\x00\x00\x00\x07\xd0\x00\x00\x00\x00\x00\x00\x00\x00\x00\x00\x00\x00\x00\x00\x00\
    3\x00\x00\x00\x0bssh-ed25519\x00\x00\x00 \x11\x11\x11\x11\x11\x11\x11\x11\x11\x11\x11\x11\x11\x11\x11\
    \x11\x11\x11\x11\x11\x11\x11\x11\x11\x11\x11\x11\x11\x11\x11\x11\x11";

/// The same with the critical option force-command, whose value is /bin/true.
const WITH_COMMAND: &[u8; 263] =
    b"\x00\x00\x00 ssh-ed25519-cert-v01@openssh.com\x00\x00\x00 33333333333333333333333333333333\x00\x00\x00\
    \x20\"\"\"\"\"\"\"\"\"\"\"\"\"\"\"\"\"\"\"\"\"\"\"\"\"\"\"\"\"\"\"\"\x00\x00\x00\x00\x00\x00\x00\x01\
    \x00\x00\x00\x01\x00\x00\x00\x09web/alice\x00\x00\x00\x09\x00\x00\x00\x05alice\x00\x00\x00\x00\x00\x00\
    \x03\xe8\x00\x00\x00\x00\x00\x00\x07\xd0\x00\x00\x00\"\x00\x00\x00\x0dforce-command\x00\x00\x00\x0d\x00\
    \x00\x00\x09/bin/true\x00\x00\x00\x00\x00\x00\x00\x00\x00\x00\x003\x00\x00\x00\x0bssh-ed25519\x00\x00\
    \x00 \x11\x11\x11\x11\x11\x11\x11\x11\x11\x11\x11\x11\x11\x11\x11\x11\x11\x11\x11\x11\x11\x11\x11\x11\
    \x11\x11\x11\x11\x11\x11\x11\x11";

/// The length of the first prefix of a body that isn't recognized as truncated, and its fault.
fn first_uncut(alloc: Global, body: &[u8]) -> Option<(usize, Option<CertFault>)> {
    for n in 0..body.len() {
        let fault = read_body(alloc, &body[..n]).err();
        if fault != Some(CertFault::Truncated) {
            return Some((n, fault));
        }
    }
    None
}

#[test]
fn each_beginning_is_cut(rt: HostRuntime) {
    assert_eq!(rt; first_uncut(rt.alloc(), PLAIN), None);
    assert_eq!(rt; first_uncut(rt.alloc(), WITH_COMMAND), None);
}

/// The start and end of a part of `PLAIN`, its replacement, and the fault that this causes, if any.
type Case = (usize, usize, &'static [u8], Option<CertFault>);

const FIELDS: [Case; 15] = [
    (4, 5, b"S", Some(CertFault::WrongType)),
    (39, 40, b"\x1f", Some(CertFault::BadNonce)),
    (75, 76, b"\x1f", Some(CertFault::BadKey)),
    (115, 116, b"\0", Some(CertFault::BadSerial)),
    (108, 109, b"\x80", Some(CertFault::BadSerial)),
    (119, 120, b"\x03", Some(CertFault::BadKind)),
    (119, 120, b"\0", Some(CertFault::BadKind)),
    (124, 125, b"/", Some(CertFault::BadKeyId)),
    (141, 142, b"A", Some(CertFault::BadPrincipals)),
    (146, 147, b"\x01", Some(CertFault::BadValidity)),
    (165, 166, b"\x01", Some(CertFault::BadOptions)),
    (169, 170, b"\x01", Some(CertFault::BadExtensions)),
    (173, 174, b"\x01", Some(CertFault::BadReserved)),
    (182, 183, b"S", Some(CertFault::BadCa)),
    (229, 229, b"\0", Some(CertFault::TrailingBytes)),
];

/// None, 16 distinct ones, 17 distinct ones, and one twice.
const PRINCIPALS: [Case; 4] = [
    (133, 146, b"\0\0\0\0", Some(CertFault::BadPrincipals)),
    (
        133,
        146,
        b"\0\0\0\x50\0\0\0\x01a\0\0\0\x01b\0\0\0\x01c\0\0\0\x01d\0\0\0\x01e\0\0\0\x01f\0\0\0\x01g\0\0\0\x01h\
        \0\0\0\x01i\0\0\0\x01j\0\0\0\x01k\0\0\0\x01l\0\0\0\x01m\0\0\0\x01n\0\0\0\x01o\0\0\0\x01p",
        None,
    ),
    (
        133,
        146,
        b"\0\0\0\x55\0\0\0\x01a\0\0\0\x01b\0\0\0\x01c\0\0\0\x01d\0\0\0\x01e\0\0\0\x01f\0\0\0\x01g\0\0\0\x01h\
        \0\0\0\x01i\0\0\0\x01j\0\0\0\x01k\0\0\0\x01l\0\0\0\x01m\0\0\0\x01n\0\0\0\x01o\0\0\0\x01p\0\0\0\x01q",
        Some(CertFault::BadPrincipals),
    ),
    (
        133,
        146,
        b"\0\0\0\x0f\0\0\0\x01a\0\0\0\x01b\0\0\0\x01a",
        Some(CertFault::BadPrincipals),
    ),
];

/// The last serial and the one after it; the latest end, the one after it, and an end at the beginning.
const NUMBERS: [Case; 5] = [
    (108, 116, b"\x7f\xff\xff\xff\xff\xff\xff\xfe", None),
    (
        108,
        116,
        b"\x7f\xff\xff\xff\xff\xff\xff\xff",
        Some(CertFault::BadSerial),
    ),
    (154, 162, b"\x00\x00\x00\x3a\xff\xf4\x41\x7f", None),
    (
        154,
        162,
        b"\x00\x00\x00\x3a\xff\xf4\x41\x80",
        Some(CertFault::BadValidity),
    ),
    (
        154,
        162,
        b"\x00\x00\x00\x00\x00\x00\x03\xe8",
        Some(CertFault::BadValidity),
    ),
];

/// A flag without and with a value, and a command without its inner length; an extension twice, two in descending
/// order, and an unknown one; and an extension in a host certificate.
const OPTIONS: [Case; 7] = [
    (
        162,
        166,
        b"\0\0\0\x17\0\0\0\x0fverify-required\0\0\0\0",
        None,
    ),
    (
        162,
        166,
        b"\0\0\0\x18\0\0\0\x0fverify-required\0\0\0\x01a",
        Some(CertFault::BadOptions),
    ),
    (
        162,
        166,
        b"\0\0\0\x1e\0\0\0\x0dforce-command\0\0\0\x09/bin/true",
        Some(CertFault::BadOptions),
    ),
    (
        166,
        170,
        b"\0\0\0\x24\0\0\0\x0apermit-pty\0\0\0\0\0\0\0\x0apermit-pty\0\0\0\0",
        Some(CertFault::BadExtensions),
    ),
    (
        166,
        170,
        b"\0\0\0\x28\0\0\0\x0epermit-user-rc\0\0\0\0\0\0\0\x0apermit-pty\0\0\0\0",
        Some(CertFault::BadExtensions),
    ),
    (
        166,
        170,
        b"\0\0\0\x10\0\0\0\x08permit-x\0\0\0\0",
        Some(CertFault::BadExtensions),
    ),
    (
        119,
        170,
        b"\x02\0\0\0\x09web/alice\0\0\0\x09\0\0\0\x05alice\0\0\0\0\0\0\x03\xe8\0\0\0\0\0\0\x07\xd0\0\0\0\0\
        \0\0\0\x12\0\0\0\x0apermit-pty\0\0\0\0",
        Some(CertFault::BadExtensions),
    ),
];

fn with_part(alloc: Global, case: &Case) -> Result<Vec<u8>, NoMemory> {
    let (until, from, part, _) = *case;
    let mut body = Vec::from_slice(alloc, PLAIN.get(..until).unwrap_or(b""))?;
    body.extend_from_slice(part)?;
    body.extend_from_slice(PLAIN.get(from..).unwrap_or(b""))?;
    Ok(body)
}

fn fault_of(alloc: Global, case: &Case) -> Option<CertFault> {
    match with_part(alloc, case) {
        Ok(body) => read_body(alloc, body.as_slice()).err(),
        Err(NoMemory) => Some(CertFault::NoMemory),
    }
}

/// The index of the first case with a different fault, that fault, and the expected one.
fn first_other(
    alloc: Global,
    cases: &[Case],
) -> Option<(usize, Option<CertFault>, Option<CertFault>)> {
    for (place, case) in cases.iter().enumerate() {
        let seen = fault_of(alloc, case);
        if seen != case.3 {
            return Some((place, seen, case.3));
        }
    }
    None
}

#[test]
fn a_changed_part_names_its_field(rt: HostRuntime) {
    assert_eq!(rt; first_other(rt.alloc(), &FIELDS), None);
    assert_eq!(rt; first_other(rt.alloc(), &PRINCIPALS), None);
    assert_eq!(rt; first_other(rt.alloc(), &NUMBERS), None);
    assert_eq!(rt; first_other(rt.alloc(), &OPTIONS), None);
}
