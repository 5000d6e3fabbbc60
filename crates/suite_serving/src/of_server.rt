//! Connections of an in-memory listener, served by an in-memory register.

use memory_store::PlainStore;
use office::Opening;
use server::{ScriptedConnection, ScriptedListener, serve_keeping, serve_on};
use std::test::Fail;
use wire::{Ending, ScriptedNonces, VecSink};

/// The department message of the in-memory office (trial office).
const DEPARTMENT: &[u8] =
    b"POST /v1/callers/root/requests/trial-web HTTP/1.1\r\ncontent-length: 191\r\n\r\n\
department web\nkind user\nadmins ana\nprincipals alice,*@example.org\noptions force-command\n\
extensions permit-X11-forwarding,permit-agent-forwarding,permit-pty\nmaxlife 86400\nnamespaces file,git\n";

/// The response of `tests/rows/the-department-of-the-trial-office.expected`.
const ACCEPTED: &[u8] = b"HTTP/1.1 200 OK\r\ncontent-type: text/plain\r\n\
content-length: 15\r\nconnection: close\r\n\r\ndepartment web\n";

/// The beginning of a head, without its end.
const HALF: &[u8] = b"GET /v1/k";

/// The issue message of the test cases in `tests/rows`, and the certificate that is pending after it.
const ISSUE: &[u8] = b"POST /v1/callers/ana/requests/i1 HTTP/1.1\r\ncontent-length: 162\r\n\r\n\
issue web\nkeyid web/alice\nkey ssh-ed25519 \
AAAAC3NzaC1lZDI1NTE5AAAAICIiIiIiIiIiIiIiIiIiIiIiIiIiIiIiIiIiIiIiIiIi\n\
principals alice\nafter 1000\nbefore 2000\nextensions\n";

const ONE_PENDING: &[u8] = b"HTTP/1.1 200 OK\r\ncontent-type: text/plain\r\n\
content-length: 67\r\nconnection: close\r\n\r\n\
1 82e0c34fe67da3fc3dc1be6682073994ec021449271b641cdd36180e95572e79\n";

const REVOCATION: &[u8] =
    b"POST /v1/callers/root/requests/r1 HTTP/1.1\r\ncontent-length: 16\r\n\r\n\
revoke-serial 1\n";

const PENDING: &[u8] = b"GET /v1/pending HTTP/1.1\r\n\r\n";

const NONE_PENDING: &[u8] = b"HTTP/1.1 200 OK\r\ncontent-type: text/plain\r\n\
content-length: 0\r\nconnection: close\r\n\r\n";

/// An office in which nothing has happened.
fn new_office(rt: &HostRuntime) -> Result<PlainStore, Fail> {
    let root = String::from_str(rt.alloc(), "root")?;
    let station = String::from_str(rt.alloc(), "station")?;
    match Opening::new([0x11; 32], root, station, 1, 9223372036854775806) {
        Ok(opening) => Ok(PlainStore::new(rt.alloc(), opening)?),
        Err(fault) => Err(Fail::from(fault)),
    }
}

// The second connection sends half a head and ends, and the fourth doesn't exist.
#[test]
fn connections_in_memory_are_met_in_turn(rt: HostRuntime) -> Result<(), Fail> {
    let all = [
        ScriptedConnection {
            sent: DEPARTMENT,
            moment: 3000,
        },
        ScriptedConnection {
            sent: HALF,
            moment: 3001,
        },
        ScriptedConnection {
            sent: DEPARTMENT,
            moment: 3002,
        },
    ];
    let mut listener = ScriptedListener::new(rt.alloc(), &all)?;
    let mut office = new_office(&rt)?;
    let mut nonces = ScriptedNonces::new(0x33, 96, Ending::Ends);
    let mut err = VecSink::new(Vec::new(rt.alloc()));
    let status = serve_on(&rt, &mut listener, &mut office, &mut nonces, 4, &mut err);
    assert_eq!(rt; status, 0);
    assert_eq!(rt;
        err.as_slice(),
        b"sshoffice: connection 4 Socket\n".as_slice()
    );
    let written = listener.written();
    assert_eq!(rt; written.len(), 3);
    assert_eq!(rt; written[0].bytes.as_slice(), ACCEPTED);
    assert!(rt; written[1].bytes.starts_with(b"HTTP/1.1 400"));
    assert_eq!(rt; written[2].bytes.as_slice(), ACCEPTED);
    assert!(rt; written.iter().all(|it| it.whole));
    assert_eq!(rt; nonces.left, 0);
    Ok(())
}

// The pending certificates are requested before an issue, twice after it, and after the revocation of its serial.
#[test]
fn what_is_pending_is_asked_again(rt: HostRuntime) -> Result<(), Fail> {
    let sent = [
        DEPARTMENT, PENDING, ISSUE, PENDING, PENDING, REVOCATION, PENDING,
    ];
    let mut all = Vec::new(rt.alloc());
    for sent in sent {
        all.push(ScriptedConnection { sent, moment: 1500 })?;
    }
    let mut listener = ScriptedListener::new(rt.alloc(), &all)?;
    let mut nonces = ScriptedNonces::new(0x33, 224, Ending::Ends);
    let mut err = VecSink::new(Vec::new(rt.alloc()));
    let (status, office) = serve_keeping(
        &rt,
        &mut listener,
        new_office(&rt)?,
        &mut nonces,
        7,
        &mut err,
    );
    drop(office);
    assert_eq!(rt; status, 0);
    assert_eq!(rt; err.as_slice(), b"".as_slice());
    let written = listener.written();
    assert_eq!(rt; written.len(), 7);
    assert_eq!(rt; written[1].bytes.as_slice(), NONE_PENDING);
    assert_eq!(rt; written[3].bytes.as_slice(), ONE_PENDING);
    assert_eq!(rt; written[4].bytes.as_slice(), ONE_PENDING);
    assert_eq!(rt; written[6].bytes.as_slice(), NONE_PENDING);
    Ok(())
}
