//! Jobs of which a call fails, in turn, over the database of a new office.

use crate::running::{FILES, INIT, SERVE, run_in, two_connections};
use crate::script::{Failing, Script};
use files::EndFault;
use server::{Fault, SelftestFault};
use sqlite::{Error, ErrorCode};
use std::io::ErrorKind;
use std::test::Fail;

const KRL: &[&str] = &["krl", "--db", "office.db"];

const APPLY: &[&str] = &["apply", "--db", "office.db", "first.exchange"];

const MIGRATE: &[&str] = &["migrate", "--db", "office.db"];

const CHECK: &[&str] = &["check", "--ca", "ca.pub", "office.krl", "5", "web/x"];

const SELFTEST: &[&str] = &["selftest"];

const CANNOT_OPEN: Error = Error::SqliteFailure(ErrorCode::CannotOpen);

const OUT_OF_MEMORY: Error = Error::SqliteFailure(ErrorCode::OutOfMemory);

const IO_FAILURE: Error = Error::SqliteFailure(ErrorCode::SystemIoFailure);

const FILE: &str = "sshoffice: File\n";

const SOCKET: &str = "sshoffice: Socket\n";

const NO_MEMORY: &str = "sshoffice: NoMemory\n";

const DEVICE: &str = "sshoffice: Device\n";

const NOT_AN_OFFICE: &str = "sshoffice: NotAnOffice\n";

/// What `krl` prints before it closes the database: an empty list, by PROTOCOL.krl.
const EMPTY_LIST: &[u8] = b"SSHKRL\n\0\0\0\0\x01\0\0\0\0\0\0\0\0\0\0\0\0\0\0\0\0\
\0\0\0\0\0\0\0\0\0\0\0\0\0\0\0\0";

/// A job with status 1.
struct Fails<'a> {
    arguments: &'a [&'a str],
    failing: Failing<'a>,
    /// The calls of the world, in order.
    calls: &'a str,
    /// What is printed to the output.
    out: &'a [u8],
    /// What is printed to the second output.
    err: &'a str,
}

/// The jobs, the call that fails, and what comes of it.
const FAILS: &[Fails<'static>] = &[
    Fails {
        arguments: INIT,
        failing: Failing::Close(EndFault::Uncopied(IO_FAILURE)),
        calls: "file ca.pub\nmake office.db\nopen office.db\nclose\n",
        out: b"",
        err: DEVICE,
    },
    Fails {
        arguments: INIT,
        failing: Failing::File("ca.pub", ErrorKind::NotFound),
        calls: "file ca.pub\n",
        out: b"",
        err: FILE,
    },
    Fails {
        arguments: INIT,
        failing: Failing::File("ca.pub", ErrorKind::OutOfMemory),
        calls: "file ca.pub\n",
        out: b"",
        err: NO_MEMORY,
    },
    Fails {
        arguments: INIT,
        failing: Failing::Read("ca.pub"),
        calls: "file ca.pub\n",
        out: b"",
        err: FILE,
    },
    Fails {
        arguments: INIT,
        failing: Failing::Make(ErrorKind::PermissionDenied),
        calls: "file ca.pub\nmake office.db\n",
        out: b"",
        err: DEVICE,
    },
    Fails {
        arguments: INIT,
        failing: Failing::Make(ErrorKind::OutOfMemory),
        calls: "file ca.pub\nmake office.db\n",
        out: b"",
        err: NO_MEMORY,
    },
    Fails {
        arguments: INIT,
        failing: Failing::Open(CANNOT_OPEN),
        calls: "file ca.pub\nmake office.db\nopen office.db\n",
        out: b"",
        err: DEVICE,
    },
    Fails {
        arguments: APPLY,
        failing: Failing::File("first.exchange", ErrorKind::PermissionDenied),
        calls: "file first.exchange\n",
        out: b"",
        err: FILE,
    },
    Fails {
        arguments: APPLY,
        failing: Failing::Read("first.exchange"),
        calls: "file first.exchange\n",
        out: b"",
        err: FILE,
    },
    Fails {
        arguments: APPLY,
        failing: Failing::Absent,
        calls: "file first.exchange\nfind office.db\n",
        out: b"",
        err: NOT_AN_OFFICE,
    },
    Fails {
        arguments: SERVE,
        failing: Failing::File("random", ErrorKind::NotFound),
        calls: "file random\n",
        out: b"",
        err: FILE,
    },
    Fails {
        arguments: SERVE,
        failing: Failing::Absent,
        calls: "file random\nfind office.db\n",
        out: b"",
        err: NOT_AN_OFFICE,
    },
    Fails {
        arguments: SERVE,
        failing: Failing::Open(OUT_OF_MEMORY),
        calls: "file random\nfind office.db\nopen office.db\n",
        out: b"",
        err: NO_MEMORY,
    },
    Fails {
        arguments: SERVE,
        failing: Failing::Listen(ErrorKind::AddrInUse),
        calls: "file random\nfind office.db\nopen office.db\nlisten 127.0.0.1:8022\nclose\n",
        out: b"",
        err: SOCKET,
    },
    Fails {
        arguments: SERVE,
        failing: Failing::Close(EndFault::Uncopied(IO_FAILURE)),
        calls: "file random\nfind office.db\nopen office.db\nlisten 127.0.0.1:8022\nclose\n",
        out: b"listening 40022\n",
        err: DEVICE,
    },
    Fails {
        arguments: KRL,
        failing: Failing::Absent,
        calls: "find office.db\n",
        out: b"",
        err: NOT_AN_OFFICE,
    },
    Fails {
        arguments: KRL,
        failing: Failing::Find(ErrorKind::PermissionDenied),
        calls: "find office.db\n",
        out: b"",
        err: DEVICE,
    },
    Fails {
        arguments: KRL,
        failing: Failing::Find(ErrorKind::OutOfMemory),
        calls: "find office.db\n",
        out: b"",
        err: NO_MEMORY,
    },
    Fails {
        arguments: KRL,
        failing: Failing::Open(CANNOT_OPEN),
        calls: "find office.db\nopen office.db\n",
        out: b"",
        err: DEVICE,
    },
    Fails {
        arguments: KRL,
        failing: Failing::Open(OUT_OF_MEMORY),
        calls: "find office.db\nopen office.db\n",
        out: b"",
        err: NO_MEMORY,
    },
    Fails {
        arguments: KRL,
        failing: Failing::Close(EndFault::Uncopied(IO_FAILURE)),
        calls: "find office.db\nopen office.db\nclose\n",
        out: EMPTY_LIST,
        err: DEVICE,
    },
    Fails {
        arguments: KRL,
        failing: Failing::Close(EndFault::GivenUp(OUT_OF_MEMORY)),
        calls: "find office.db\nopen office.db\nclose\n",
        out: EMPTY_LIST,
        err: NO_MEMORY,
    },
    Fails {
        arguments: MIGRATE,
        failing: Failing::Close(EndFault::Uncopied(IO_FAILURE)),
        calls: "find office.db\nopen office.db\nclose\n",
        out: b"",
        err: "sshoffice: WrongSchema\n",
    },
    Fails {
        arguments: CHECK,
        failing: Failing::File("ca.pub", ErrorKind::NotFound),
        calls: "file ca.pub\n",
        out: b"",
        err: FILE,
    },
    Fails {
        arguments: CHECK,
        failing: Failing::File("office.krl", ErrorKind::NotFound),
        calls: "file ca.pub\nfile office.krl\n",
        out: b"",
        err: FILE,
    },
    Fails {
        arguments: CHECK,
        failing: Failing::Read("office.krl"),
        calls: "file ca.pub\nfile office.krl\n",
        out: b"",
        err: FILE,
    },
    Fails {
        arguments: SELFTEST,
        failing: Failing::Test(SelftestFault::Unserved(Fault::Socket)),
        calls: "test\n",
        out: b"",
        err: SOCKET,
    },
    Fails {
        arguments: SELFTEST,
        failing: Failing::Test(SelftestFault::Mismatch),
        calls: "test\n",
        out: b"",
        err: "sshoffice: Mismatch\n",
    },
];

// The first job makes the office of the others, although its database isn't closed well.
#[test]
fn the_first_failed_call_is_the_fault(rt: HostRuntime) -> Result<(), Fail> {
    let connections = two_connections();
    let mut script = Script::new(rt.alloc(), FILES, &connections);
    for case in FAILS {
        script.failing = case.failing;
        let ran = run_in(&mut script, case.arguments)?;
        assert_eq!(rt; ran.calls.as_slice(), case.calls.as_bytes());
        assert_eq!(rt; ran.out.as_slice(), case.out);
        assert_eq!(rt; ran.err.as_slice(), case.err.as_bytes());
        assert_eq!(rt; ran.status, 1);
    }
    Ok(())
}
