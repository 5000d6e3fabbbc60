//! `list_guard`: what isn't proved, that calls answer if memory suffices.
//!
//! The lists have the format of `docs/FORMATS.md`, and their digests were computed by `sha256sum`.

ghost use Rattle.std.specs.Prelude.{◌<◌};

use list_guard::{Answer, MemoryListGuard, Refusal, judge_list, put_answer};
use std::alloc::Global;
use text::Text;

/// The list of version 1 that revokes the serial 1 of the CA whose key is 32 bytes 0x11.
const ONE: &[u8; 121] =
    b"SSHKRL\n\0\0\0\0\x01\0\0\0\0\0\0\0\x01\0\0\0\0\0\0\x0b\xb8\0\0\0\0\0\0\0\0\0\0\0\0\0\0\0\0\x01\0\0\0\
    H\0\0\03\0\0\0\x0bssh-ed25519\0\0\0\x20\x11\x11\x11\x11\x11\x11\x11\x11\x11\x11\x11\x11\x11\x11\x11\x11\
    \x11\x11\x11\x11\x11\x11\x11\x11\x11\x11\x11\x11\x11\x11\x11\x11\0\0\0\0\x20\0\0\0\x08\0\0\0\0\0\
    \0\0\x01";

/// The list of version 3 that revokes the serials 5 to 7.
const THREE: &[u8; 129] =
    b"SSHKRL\n\0\0\0\0\x01\0\0\0\0\0\0\0\x03\0\0\0\0\0\0\x0b\xbe\0\0\0\0\0\0\0\0\0\0\0\0\0\0\0\0\x01\0\0\0\
    P\0\0\03\0\0\0\x0bssh-ed25519\0\0\0\x20\x11\x11\x11\x11\x11\x11\x11\x11\x11\x11\x11\x11\x11\x11\x11\x11\
    \x11\x11\x11\x11\x11\x11\x11\x11\x11\x11\x11\x11\x11\x11\x11\x11\0\0\0\0\x21\0\0\0\x10\0\0\0\0\0\
    \0\0\x05\0\0\0\0\0\0\0\x07";

/// The line of the first list at the time 5000, with its SHA-256 by sha256sum(1).
const STATED: &[u8] =
    b"list 860eb9275bd973d16a1b2b187b39b2e3b727046702974d7165fb10c6ac988eac 1 5000\n";

/// The index of the last byte of the version, and of the date.
const VERSION: usize = 19;

const DATE: usize = 27;

/// The answer of a guard whose CA's key is 32 bytes 0x11.
fn answer_to(
    alloc: Global,
    guard: &mut MemoryListGuard,
    begins: bool,
    list: &[u8],
) -> Option<Answer> {
    let Ok(list) = Text::from_slice(alloc, list) else {
        return None;
    };
    let answer = judge_list(guard, &[[0x11; 32]], begins, list);
    answer.ok()
}

/// The first list with a different byte at an index.
fn one_but(place: usize, byte: u8) -> [u8; 121]
    requires { place < 121 }
{
    let mut list = *ONE;
    list[place] = byte;
    list
}

fn version_of(answer: Option<Answer>) -> Option<u64> {
    match answer {
        Some(Answer::Approve { version, .. }) => Some(version),
        _ => None,
    }
}

fn refusal_of(answer: Option<Answer>) -> Option<Refusal> {
    match answer {
        Some(Answer::Refuse(refusal)) => Some(refusal),
        _ => None,
    }
}

#[test]
fn lists_come_one_after_the_other(rt: HostRuntime) {
    let mut guard = MemoryListGuard::new();
    let first = answer_to(rt.alloc(), &mut guard, false, ONE);
    assert_eq!(rt; refusal_of(first), Some(Refusal::NotBegun));
    assert_eq!(rt;
        version_of(answer_to(rt.alloc(), &mut guard, true, ONE)),
        Some(1)
    );
    assert_eq!(rt;
        version_of(answer_to(rt.alloc(), &mut guard, false, ONE)),
        Some(1)
    );
    let older = answer_to(rt.alloc(), &mut guard, true, &one_but(VERSION, 0));
    assert_eq!(rt; refusal_of(older), Some(Refusal::OlderVersion));
    let other = answer_to(rt.alloc(), &mut guard, true, &one_but(DATE, 0));
    assert_eq!(rt; refusal_of(other), Some(Refusal::OtherBytes));
    let forgetful = answer_to(rt.alloc(), &mut guard, true, THREE);
    assert_eq!(rt; refusal_of(forgetful), Some(Refusal::Forgets));
    let jump = answer_to(rt.alloc(), &mut guard, false, &one_but(VERSION, 2));
    assert_eq!(rt; refusal_of(jump), Some(Refusal::VersionJumps));
}

#[test]
fn a_first_version_is_no_higher_than_the_size(rt: HostRuntime) {
    let mut guard = MemoryListGuard::new();
    let jump = answer_to(rt.alloc(), &mut guard, true, &one_but(VERSION, 3));
    assert_eq!(rt; refusal_of(jump), Some(Refusal::VersionJumps));
    let first = answer_to(rt.alloc(), &mut guard, true, &one_but(VERSION, 2));
    assert_eq!(rt; version_of(first), Some(2));
    let back = answer_to(rt.alloc(), &mut guard, true, ONE);
    assert_eq!(rt; refusal_of(back), Some(Refusal::OlderVersion));
}

#[test]
fn other_bytes_and_other_cas_are_refused(rt: HostRuntime) {
    let mut guard = MemoryListGuard::new();
    let cut = answer_to(rt.alloc(), &mut guard, true, &ONE[..120]);
    assert_eq!(rt; refusal_of(cut), Some(Refusal::NotAList));
    let flags = answer_to(rt.alloc(), &mut guard, true, &one_but(DATE + 8, 1));
    assert_eq!(rt; refusal_of(flags), Some(Refusal::NotAList));
    let list = Text::from_slice(rt.alloc(), ONE).expect(&rt, "memory suffices");
    let other = judge_list(&mut guard, &[[0x12; 32]], true, list);
    assert_eq!(rt; refusal_of(other.ok()), Some(Refusal::OtherCa));
}

#[test]
fn an_answer_is_a_line(rt: HostRuntime) {
    let mut guard = MemoryListGuard::new();
    let mut out = Vec::new(rt.alloc());
    let approved = answer_to(rt.alloc(), &mut guard, true, ONE).expect(&rt, "memory suffices");
    put_answer(&mut out, approved, 5000).expect(&rt, "memory suffices");
    assert!(rt; out.as_slice() == STATED);
    let mut out = Vec::new(rt.alloc());
    put_answer(&mut out, Answer::Refuse(Refusal::Forgets), 5000).expect(&rt, "memory suffices");
    assert!(rt; out.as_slice() == b"refuse Forgets\n".as_slice());
    assert_eq!(rt; Refusal::NotAList.number(), 40);
    assert_eq!(rt; Refusal::VersionJumps.number(), 46);
}
