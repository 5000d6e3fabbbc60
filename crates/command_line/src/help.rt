//! The help text of each command, option and argument.

/// The first line of the program's help: what the program is for.
pub const OFFICE: &str = "Keeps the records of an SSH certificate authority";

/// What `--version` prints after the program's name: the program's version, and the Rattle toolchain that proved it.
pub const VERSION: &str = "1.0.0 (rattle-kit-13b)";

/// The end of the program's help.
pub const OFFICE_MORE: &str = "Typical order:
  1. init creates an office in a new database.
  2. serve answers requests. It trusts the caller's name in each request's path, so a reverse
     proxy in front of it has to authenticate callers.
  3. The signing station fetches pending certificates, signs them, and delivers the signatures.

Exit status:
  0  success
  1  a fault, named on standard error
  2  invalid arguments

Example:
  sshoffice apply first.exchange

Each command has its own help, for example sshoffice init --help.
Write a value that begins with '-' as --OPTION=VALUE. Arguments that begin with '-' go after --.";

/// What `init` does.
pub const INIT: &str = "Creates an office in a new database";

/// The end of the help of `init`.
pub const INIT_MORE: &str = "Example:
  sshoffice init --db office.db --ca ca.pub --root root --station station --first 1 --last 1000000

The file is created if it doesn't exist; then only you can read and write it.
Write a value that begins with '-' as --OPTION=VALUE.";

/// What `apply` does.
pub const APPLY: &str = "Answers the requests in a file";

/// The end of the help of `apply`.
pub const APPLY_MORE: &str = "Example:
  sshoffice apply --db office.db first.exchange

A FILE whose name begins with '-' goes after --.
While a server has the database open, apply --db fails with Device. Send requests to the server.";

/// What `serve` does.
pub const SERVE: &str = "Answers HTTP requests on 127.0.0.1, one connection at a time";

/// The end of the help of `serve`.
pub const SERVE_MORE: &str = "Example:
  sshoffice serve --db office.db --port 8022 --connections 100 --nonces /dev/urandom

Once it is listening, the server prints its port. After N connections it exits with status 0, and
the service manager is expected to start it again. If a connection fails, the server prints its
number and the fault on standard error, for example connection 7 Read, and serves the next one.
While the server runs, no other program can open the database.";

/// What `krl` does.
pub const KRL: &str = "Prints the key revocation list (KRL)";

/// The end of the help of `krl`.
pub const KRL_MORE: &str = "Example:
  sshoffice krl --db office.db > office.krl

While a server has the database open, this fails with Device. Fetch /v1/krl from the server.";

/// What `signers` does.
pub const SIGNERS: &str = "Prints the allowed signers file for ssh-keygen -Y";

/// The end of the help of `signers`.
pub const SIGNERS_MORE: &str = "Example:
  sshoffice signers --db office.db > allowed_signers

While a server has the database open, this fails with Device. Fetch /v1/signers from the server.";

/// What `table` does.
pub const TABLE: &str = "Prints the table of certificates";

/// The end of the help of `table`.
pub const TABLE_MORE: &str = "Example:
  sshoffice table --db office.db

While a server has the database open, this fails with Device. Fetch /v1/table from the server.";

/// What `check` does.
pub const CHECK: &str = "Checks whether a KRL revokes a certificate";

/// The end of the help of `check`.
pub const CHECK_MORE: &str = "Example:
  sshoffice check --ca ca.pub office.krl 7 web/alice

Arguments that begin with '-' go after --, as in check --ca ca.pub -- office.krl 7 -web/alice";

/// What `migrate` does.
pub const MIGRATE: &str = "Migrates a database from schema 1 to schema 2";

/// The end of the help of `migrate`.
pub const MIGRATE_MORE: &str = "Example:
  sshoffice migrate --db office.db";

/// What `selftest` does.
pub const SELFTEST: &str =
    "Sends a request to an in-memory office over a socket and checks the answer";

/// The end of the help of `selftest`.
pub const SELFTEST_MORE: &str = "Example:
  sshoffice selftest";

/// What `--db` is, for a command that opens an office.
pub const DATABASE: &str = "The office's database, created by init";

/// What `--db` is, for `init`.
pub const NEW_DATABASE: &str = "The database to create";

/// What `--db` is, for `apply`.
pub const DATABASE_OR_NONE: &str = "The office's database; if omitted, a new office in memory";

/// What `--ca` is.
pub const CA_FILE: &str = "The file with the CA's public-key line";

/// What `--root` is.
pub const ROOT: &str = "The caller that may do everything except deliver signatures";

/// What `--station` is.
pub const STATION: &str = "The caller that delivers signatures";

/// What `--first` is.
pub const FIRST: &str = "The first serial, at least 1";

/// What `--last` is.
pub const LAST: &str = "The last serial, at most 9223372036854775806";

/// What `FILE` is.
pub const EXCHANGE_FILE: &str = "The file of requests, or /dev/stdin";

/// What `--port` is.
pub const PORT: &str = "The port to listen on, or 0 for any free one";

/// What `--connections` is.
pub const CONNECTIONS: &str = "How many connections to serve, 1 to 1000000";

/// What `--nonces` is.
pub const NONCES: &str = "The file of nonces, 32 bytes per connection, for example /dev/urandom";

/// What `KRL` is.
pub const LIST_FILE: &str = "The file with the KRL";

/// What `SERIAL` is.
pub const SERIAL: &str = "The certificate's serial, 1 to 18446744073709551615";

/// What `KEYID` is.
pub const KEY_ID: &str = "The certificate's key ID";
