//! The files and the requests of the tests, and a job in a world in memory.

use crate::script::{Script, ScriptedFile};
use office_jobs::{Console, do_words};
use server::ScriptedConnection;
use std::alloc::Alloc;
use std::test::Fail;
use wire::FromWrite;

/// The CA of the test cases in `tests/rows`.
const CA: &[u8] =
    b"ssh-ed25519 AAAAC3NzaC1lZDI1NTE5AAAAIBERERERERERERERERERERERERERERERERERERERERER office\n";

/// A list that revokes the serials 5 to 7 of this CA, by PROTOCOL.krl.
const RANGE: &[u8] = b"SSHKRL\n\0\0\0\0\x01\0\0\0\0\0\0\0\x03\0\0\0\0\0\0\x0b\xbe\
\0\0\0\0\0\0\0\0\0\0\0\0\0\0\0\0\
\x01\0\0\0\x50\0\0\0\x33\0\0\0\x0bssh-ed25519\0\0\0\x20\
\x11\x11\x11\x11\x11\x11\x11\x11\x11\x11\x11\x11\x11\x11\x11\x11\
\x11\x11\x11\x11\x11\x11\x11\x11\x11\x11\x11\x11\x11\x11\x11\x11\
\0\0\0\0\x21\0\0\0\x10\0\0\0\0\0\0\0\x05\0\0\0\0\0\0\0\x07";

/// The first exchange of `examples/first-issue.exchange`.
const EXCHANGE: &[u8] =
    b"exchange 1000 3333333333333333333333333333333333333333333333333333333333333333 228\n\
POST /v1/callers/ana/requests/i1 HTTP/1.1\r\ncontent-length: 162\r\n\r\n\
issue web\nkeyid web/alice\nkey ssh-ed25519 \
AAAAC3NzaC1lZDI1NTE5AAAAICIiIiIiIiIiIiIiIiIiIiIiIiIiIiIiIiIiIiIiIiIi\n\
principals alice\nafter 1000\nbefore 2000\nextensions\n";

/// The department of `tests/rows/the-department-of-the-trial-office.exchange`.
const DEPARTMENT: &[u8] =
    b"POST /v1/callers/root/requests/trial-web HTTP/1.1\r\ncontent-length: 191\r\n\r\n\
department web\nkind user\nadmins ana\nprincipals alice,*@example.org\noptions force-command\n\
extensions permit-X11-forwarding,permit-agent-forwarding,permit-pty\nmaxlife 86400\nnamespaces file,git\n";

/// The request of the exchange.
const ISSUE: &[u8] = b"POST /v1/callers/ana/requests/i1 HTTP/1.1\r\ncontent-length: 162\r\n\r\n\
issue web\nkeyid web/alice\nkey ssh-ed25519 \
AAAAC3NzaC1lZDI1NTE5AAAAICIiIiIiIiIiIiIiIiIiIiIiIiIiIiIiIiIiIiIiIiIi\n\
principals alice\nafter 1000\nbefore 2000\nextensions\n";

/// The nonces of two connections.
const NONCES: &[u8] = b"3333333333333333333333333333333333333333333333333333333333333333";

/// The words of an `init`.
pub const INIT: &[&str] = &[
    "init",
    "--db",
    "office.db",
    "--ca",
    "ca.pub",
    "--root",
    "root",
    "--station",
    "station",
    "--first",
    "1",
    "--last",
    "9223372036854775806",
];

/// The words of a `serve`.
pub const SERVE: &[&str] = &[
    "serve",
    "--db",
    "office.db",
    "--port",
    "8022",
    "--connections",
    "2",
    "--nonces",
    "random",
];

/// The files of the tests.
pub const FILES: &[ScriptedFile<'static>] = &[
    ScriptedFile {
        path: "ca.pub",
        bytes: CA,
    },
    ScriptedFile {
        path: "office.krl",
        bytes: RANGE,
    },
    ScriptedFile {
        path: "first.exchange",
        bytes: EXCHANGE,
    },
    ScriptedFile {
        path: "random",
        bytes: NONCES,
    },
];

/// Two connections: the first creates a department, and the second has a certificate issued.
pub fn two_connections() -> [ScriptedConnection<'static>; 2] {
    [
        ScriptedConnection {
            sent: DEPARTMENT,
            moment: 0,
        },
        ScriptedConnection {
            sent: ISSUE,
            moment: 1000,
        },
    ]
}

/// A job that was done in a world.
#[derive(Drop)]
pub struct Ran {
    /// The calls of the world.
    pub calls: Vec<u8>,
    /// The status.
    pub status: u8,
    /// What was printed to the output.
    pub out: Vec<u8>,
    /// What was printed to the second output.
    pub err: Vec<u8>,
}

/// Does what the arguments ask for in a world.
pub fn run_in(script: &mut Script<'_>, arguments: &[&str]) -> Result<Ran, Fail> {
    let alloc = script.alloc();
    let mut words = Vec::new(alloc);
    words.push(String::from_str(alloc, "sshoffice")?)?;
    for argument in arguments {
        words.push(String::from_str(alloc, argument)?)?;
    }
    let mut err = FromWrite::new(Vec::new(alloc));
    let out = Console::new(Vec::new(alloc));
    let (status, out) = do_words(script, words.as_slice(), out, &mut err);
    Ok(Ran {
        calls: script.take_calls(),
        status,
        out: out.into_inner(),
        err: err.into_inner(),
    })
}
