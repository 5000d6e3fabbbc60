//! `guard`: what only calls can show, that they return a result if there is enough memory.
//!
//! The unsigned certificate (body) has the form in `docs/FORMATS.md`: key bytes 0x22, nonce bytes 0x33, CA bytes 0x11;
//! serial 1, a user, key id web/alice, principal alice, from 1000 to 2000.

use cert::CertFault;
use guard::{
    Answer, BodyFault, MemoryGuard, Policy, PolicyFault, Refusal, Register, Scope, Verdict, View,
    Window, decide, fields_of, judge, put_answer,
};
use std::alloc::Global;
use text::Text;

const BODY: &[u8; 229] =
    b"\x00\x00\x00 ssh-ed25519-cert-v01@openssh.com\x00\x00\x00 33333333333333333333333333333333\x00\x00\x00\
    \x20\"\"\"\"\"\"\"\"\"\"\"\"\"\"\"\"\"\"\"\"\"\"\"\"\"\"\"\"\"\"\"\"\x00\x00\x00\x00\x00\x00\x00\x01\
    \x00\x00\x00\x01\x00\x00\x00\x09web/alice\x00\x00\x00\x09\x00\x00\x00\x05alice\x00\x00\x00\x00\x00\x00\
    \x03\xe8\x00\x00\x00\x00\x00\x00\x07\xd0\x00\x00\x00\x00\x00\x00\x00\x00\x00\x00\x00\x00\x00\x00\x00\
    3\x00\x00\x00\x0bssh-ed25519\x00\x00\x00 \x11\x11\x11\x11\x11\x11\x11\x11\x11\x11\x11\x11\x11\x11\x11\
    \x11\x11\x11\x11\x11\x11\x11\x11\x11\x11\x11\x11\x11\x11\x11\x11\x11";

/// The department, with a comment before it and an empty line after it.
const WEB: &[u8] = b"# for people\n\
department web\nkind user\nadmins ana\nprincipals alice\noptions\nextensions\nmaxlife 1000\nnamespaces\n\n";

const HOSTS: &[u8] =
    b"department web\nkind host\nadmins\nprincipals alice\noptions\nextensions\nmaxlife 1000\nnamespaces\n";

const SHORT: &[u8] =
    b"department web\nkind user\nadmins\nprincipals alice\noptions\nextensions\nmaxlife 999\nnamespaces\n";

/// The CA's byte, the first serial, the policy, the time and the seconds ahead, and the verdict.
type Case = (u8, u64, &'static [u8], u64, u64, Verdict);

const CASES: [Case; 11] = [
    (0x11, 1, WEB, 1500, 0, Verdict::Approve),
    (0x11, 1, WEB, 1999, 0, Verdict::Approve),
    (0x11, 1, WEB, 400, 600, Verdict::Approve),
    (0x12, 2, b"", 2000, 0, Verdict::Refuse(Refusal::OtherCa)),
    (0x11, 2, b"", 2000, 0, Verdict::Refuse(Refusal::OtherSerial)),
    (
        0x11,
        1,
        b"# none\n",
        2000,
        0,
        Verdict::Refuse(Refusal::NoDepartment),
    ),
    (0x11, 1, HOSTS, 2000, 0, Verdict::Refuse(Refusal::OtherKind)),
    (
        0x11,
        1,
        SHORT,
        2000,
        0,
        Verdict::Refuse(Refusal::NotPermitted),
    ),
    (
        0x11,
        1,
        WEB,
        2000,
        0,
        Verdict::Refuse(Refusal::AlreadyEnded),
    ),
    (
        0x11,
        1,
        WEB,
        399,
        600,
        Verdict::Refuse(Refusal::TooFarAhead),
    ),
    (0x11, 1, WEB, 0, 999, Verdict::Refuse(Refusal::TooFarAhead)),
];

/// The verdict of a test case, if this body is kept under the serial.
fn verdict_of(alloc: Global, case: &Case, kept: Option<&Text>) -> Option<Verdict> {
    let (ca, first, policy, moment, ahead, _) = *case;
    let Ok(policy) = Policy::read(alloc, policy) else {
        return None;
    };
    let Ok(fields) = fields_of(alloc, BODY) else {
        return None;
    };
    let scope = Scope {
        ca: [ca; 32],
        first,
        last: 9,
    };
    let view = View { scope, kept };
    Some(decide(&view, &policy, Window { moment, ahead }, BODY, &fields))
}

#[test]
fn a_body_is_judged_by_the_table(rt: HostRuntime) {
    for case in &CASES {
        assert_eq!(rt; verdict_of(rt.alloc(), case, None), Some(case.5));
    }
}

#[test]
fn what_is_kept_is_signed_again_and_no_other(rt: HostRuntime) {
    let again = Text::from_slice(rt.alloc(), BODY).expect(&rt, "memory suffices");
    let other = Text::from_slice(rt.alloc(), b"other").expect(&rt, "memory suffices");
    let late = &CASES[8];
    assert_eq!(rt;
        verdict_of(rt.alloc(), late, Some(&again)),
        Some(Verdict::Again)
    );
    let taken = Verdict::Refuse(Refusal::SerialTaken);
    assert_eq!(rt; verdict_of(rt.alloc(), late, Some(&other)), Some(taken));
}

/// The SHA-256 of the body, by sha256sum(1).
const DIGEST: &[u8; 64] = b"82e0c34fe67da3fc3dc1be6682073994ec021449271b641cdd36180e95572e79";

/// A guard's answers for some bytes, judged at once by the policy `WEB` with 0 seconds ahead.
fn answers_to<R: Register>(
    alloc: Global,
    guard: &mut R,
    moment: u64,
    bytes: &[&[u8]],
) -> Option<Vec<Answer>> {
    let Ok(policy) = Policy::read(alloc, WEB) else {
        return None;
    };
    let mut bodies = Vec::new(alloc);
    for body in bytes {
        let Ok(body) = Text::from_slice(alloc, body) else {
            return None;
        };
        if bodies.push(body).is_err() {
            return None;
        }
    }
    let window = Window { moment, ahead: 0 };
    judge(alloc, guard, &policy, window, bodies.as_slice()).ok()
}

/// The answer for some bytes, judged alone.
fn answer_to<R: Register>(
    alloc: Global,
    guard: &mut R,
    moment: u64,
    body: &[u8],
) -> Option<Answer> {
    match answers_to(alloc, guard, moment, &[body]) {
        Some(answers) => answers.first().copied(),
        None => None,
    }
}

#[test]
fn a_guard_signs_one_body_a_serial(rt: HostRuntime) {
    let scope = Scope {
        ca: [0x11; 32],
        first: 1,
        last: 1,
    };
    let mut guard = MemoryGuard::new(rt.alloc(), scope);
    let mut second = *BODY;
    second[44] = b'4';
    let signed = Answer::Sign {
        serial: 1,
        digest: *DIGEST,
    };
    let late = Answer::Refuse(Refusal::AlreadyEnded);
    let taken = Answer::Refuse(Refusal::SerialTaken);
    let cut = Answer::NotABody(BodyFault::NotOfTheProfile(CertFault::Truncated));
    let long = Answer::NotABody(BodyFault::TooLong);
    assert_eq!(rt; answer_to(rt.alloc(), &mut guard, 2000, BODY), Some(late));
    assert_eq!(rt;
        answer_to(rt.alloc(), &mut guard, 1500, &BODY[..228]),
        Some(cut)
    );
    assert_eq!(rt;
        answer_to(rt.alloc(), &mut guard, 1500, &[0; 16385]),
        Some(long)
    );
    assert_eq!(rt; answer_to(rt.alloc(), &mut guard, 1500, BODY), Some(signed));
    assert_eq!(rt;
        answer_to(rt.alloc(), &mut guard, 1500, &second),
        Some(taken)
    );
    assert_eq!(rt; answer_to(rt.alloc(), &mut guard, 2000, BODY), Some(signed));
}

#[test]
fn bodies_that_come_together_are_judged_in_order(rt: HostRuntime) {
    let scope = Scope {
        ca: [0x11; 32],
        first: 1,
        last: 1,
    };
    let mut guard = MemoryGuard::new(rt.alloc(), scope);
    let mut second = *BODY;
    second[44] = b'4';
    let signed = Answer::Sign {
        serial: 1,
        digest: *DIGEST,
    };
    let taken = Answer::Refuse(Refusal::SerialTaken);
    let bodies = [BODY.as_slice(), second.as_slice(), BODY.as_slice()];
    let answers = answers_to(rt.alloc(), &mut guard, 1500, &bodies).expect(&rt, "memory suffices");
    assert_eq!(rt; answers.as_slice(), [signed, taken, signed].as_slice());
    assert_eq!(rt;
        answer_to(rt.alloc(), &mut guard, 1500, &second),
        Some(taken)
    );
}

#[test]
fn an_answer_is_a_line(rt: HostRuntime) {
    let signed = Answer::Sign {
        serial: 7,
        digest: *DIGEST,
    };
    let bad_ca = BodyFault::NotOfTheProfile(CertFault::BadCa);
    let lines: [(Answer, &[u8]); 4] = [
        (
            signed,
            b"sign 7 82e0c34fe67da3fc3dc1be6682073994ec021449271b641cdd36180e95572e79\n",
        ),
        (
            Answer::Refuse(Refusal::SerialTaken),
            b"refuse SerialTaken\n",
        ),
        (
            Answer::NotABody(BodyFault::TooLong),
            b"refuse NotABody TooLong\n",
        ),
        (Answer::NotABody(bad_ca), b"refuse NotABody BadCa\n"),
    ];
    for (answer, line) in &lines {
        let mut out = Vec::new(rt.alloc());
        assert_eq!(rt; put_answer(&mut out, *answer), Ok(()));
        assert_eq!(rt; out.as_slice(), *line);
    }
}

/// Policies, and the lines that are reported. The first four are made from the one in `docs/FORMATS.md`, as it says.
const POLICIES: [(&[u8], u64); 7] = [
    (b" # people\n", 1),
    (b"# people\ndepartment web\nki", 3),
    (
        b"# people\ndepartment web\nkind user\nadmins ana\nprincipals alice\noptions\nextensions permit-pty\n\
        maxlife 86400\nnamespaces",
        9,
    ),
    (
        b"# people\ndepartment web\nkind user\nadmins ana\nprincipals alice\noptions\nextensions permit-pty\n\
        maxlife 86400\nnamespaces\ndepartment web\nkind user\nadmins ana\nprincipals alice\noptions\n\
        extensions permit-pty\nmaxlife 86400\nnamespaces\n",
        10,
    ),
    (b"\n\n# a message of another kind\n\nrevoke-serial 1\n", 5),
    (b"\n# a comment\n no comment\n", 3),
    (b"#\ndepartment web\nkind user\n", 4),
];

#[test]
fn the_bad_line_of_a_policy_is_that_of_the_file(rt: HostRuntime) {
    for (policy, line) in &POLICIES {
        let fault = Policy::read(rt.alloc(), policy).err();
        assert_eq!(rt; fault, Some(PolicyFault::BadPolicy(*line)));
    }
}
