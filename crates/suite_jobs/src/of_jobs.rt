//! Each job once, in turn, in a world in which every call succeeds.

use crate::running::{FILES, INIT, SERVE, run_in, two_connections};
use crate::script::Script;
use std::test::Fail;

/// A job, and what comes of it.
struct Job<'a> {
    /// Its arguments.
    arguments: &'a [&'a str],
    /// The calls of the world, in order.
    calls: &'a str,
    /// The status.
    status: u8,
    /// What is printed to the output.
    out: &'a [u8],
    /// What is printed to the second output.
    err: &'a str,
}

/// The jobs, in turn. The texts are those of `docs/FORMATS.md`, and the empty list is that of PROTOCOL.krl.
const JOBS: &[Job<'static>] = &[
    Job {
        arguments: INIT,
        calls: "file ca.pub\nmake office.db\nopen office.db\nclose\n",
        status: 0,
        out: b"office ready 1 9223372036854775806\nca SHA256:SQfC+vTbLURn9cTkVxIS8fGQ3FKNAJWeB0o139+gV4M\n",
        err: "",
    },
    Job {
        arguments: INIT,
        calls: "file ca.pub\nmake office.db\nopen office.db\nclose\n",
        status: 1,
        out: b"",
        err: "sshoffice: AlreadyAnOffice\n",
    },
    Job {
        arguments: &["krl", "--db", "office.db"],
        calls: "find office.db\nopen office.db\nclose\n",
        status: 0,
        out: b"SSHKRL\n\0\0\0\0\x01\0\0\0\0\0\0\0\0\0\0\0\0\0\0\0\0\0\0\0\0\0\0\0\0\0\0\0\0\0\0\0\0",
        err: "",
    },
    Job {
        arguments: SERVE,
        calls: "file random\nfind office.db\nopen office.db\nlisten 127.0.0.1:8022\nclose\n",
        status: 0,
        out: b"listening 40022\n",
        err: "",
    },
    Job {
        arguments: &["table", "--db", "office.db"],
        calls: "find office.db\nopen office.db\nclose\n",
        status: 0,
        out: b"                  1  user  pending          1000          2000  web/alice\ntotal 1 version 0\n",
        err: "",
    },
    Job {
        arguments: &["signers", "--db", "office.db"],
        calls: "find office.db\nopen office.db\nclose\n",
        status: 0,
        out: b"alice,*@example.org cert-authority,namespaces=\"file,git\" ssh-ed25519 \
AAAAC3NzaC1lZDI1NTE5AAAAIBERERERERERERERERERERERERERERERERERERERERER\n",
        err: "",
    },
    Job {
        arguments: &["apply", "--db", "office.db", "first.exchange"],
        calls: "file first.exchange\nfind office.db\nopen office.db\nclose\n",
        status: 0,
        out: b"answer 165\nHTTP/1.1 200 OK\r\ncontent-type: text/plain\r\ncontent-length: 81\r\nconnection: close\
\r\n\r\nissued 1\ndigest 82e0c34fe67da3fc3dc1be6682073994ec021449271b641cdd36180e95572e79\n",
        err: "",
    },
    Job {
        arguments: &["migrate", "--db", "office.db"],
        calls: "find office.db\nopen office.db\nclose\n",
        status: 1,
        out: b"",
        err: "sshoffice: WrongSchema\n",
    },
    Job {
        arguments: &["apply", "first.exchange"],
        calls: "file first.exchange\n",
        status: 0,
        out: b"answer 165\nHTTP/1.1 200 OK\r\ncontent-type: text/plain\r\ncontent-length: 81\r\nconnection: close\
\r\n\r\nissued 1\ndigest 82e0c34fe67da3fc3dc1be6682073994ec021449271b641cdd36180e95572e79\n",
        err: "",
    },
    Job {
        arguments: &["check", "--ca", "ca.pub", "office.krl", "5", "web/x"],
        calls: "file ca.pub\nfile office.krl\n",
        status: 0,
        out: b"revoked\n",
        err: "",
    },
    Job {
        arguments: &["selftest"],
        calls: "test\n",
        status: 0,
        out: b"selftest ok\n",
        err: "",
    },
];

#[test]
fn jobs_open_what_their_arguments_name(rt: HostRuntime) -> Result<(), Fail> {
    let connections = two_connections();
    let mut script = Script::new(rt.alloc(), FILES, &connections);
    for job in JOBS {
        let ran = run_in(&mut script, job.arguments)?;
        assert_eq!(rt; ran.calls.as_slice(), job.calls.as_bytes());
        assert_eq!(rt; ran.out.as_slice(), job.out);
        assert_eq!(rt; ran.err.as_slice(), job.err.as_bytes());
        assert_eq!(rt; ran.status, job.status);
    }
    Ok(())
}
