//! The help text of each command, option and argument.

/// The first line of the program's help: what the program is for.
pub const STATION: &str =
    "Decides which SSH certificates and revocation lists a CA's key may sign, and records what it approves";

/// What `--version` prints after the program's name: the program's version, and the Rattle toolchain that proved it.
pub const VERSION: &str = "1.0.0 (rattle-kit-13f)";

/// The end of the program's help.
pub const STATION_MORE: &str = "Typical order:
  1. init creates a guard in a new database, on the machine with the CA's key.
  2. policy checks a policy.
  3. judge decides for each unsigned certificate (BODY) whether it may be signed. What it
     approves is recorded before it is printed.
  4. lists creates a guard of lists, and list decides whether a KRL may follow the last one.

Exit status:
  0  success
  1  a fault, named on standard error
  2  invalid arguments

Example:
  sshstation judge --db guard.db --policy policy body

Each command has its own help, for example sshstation init --help.
Write a value that begins with '-' as --OPTION=VALUE. Arguments that begin with '-' go after --.";

/// What `init` does.
pub const INIT: &str = "Creates a guard in a new database";

/// The end of the help of `init`.
pub const INIT_MORE: &str = "Example:
  sshstation init --db guard.db --ca ca.pub --first 1 --last 1000000

The file is created if it doesn't exist; then only you can read and write it.
The first serial has to be above every serial that this key has signed.";

/// What `judge` does.
pub const JUDGE: &str =
    "Decides whether unsigned certificates may be signed, and records those that may";

/// The end of the help of `judge`.
pub const JUDGE_MORE: &str = "Example:
  sshstation judge --db guard.db --policy policy body

It prints one line per BODY, in order: sign SERIAL DIGEST or refuse NAME.
If the only BODY is -, it reads batches from standard input: a line judge COUNT, and for each BODY a
line with its length in bytes, and the bytes. COUNT is at most 64. It reads the policy again before
each batch, and answers a batch before it reads the next.";

/// What `bodies` does.
pub const BODIES: &str = "Prints one line per approved certificate";

/// The end of the help of `bodies`.
pub const BODIES_MORE: &str = "Example:
  sshstation bodies --db copy.db

A line is SERIAL DIGEST TIME KEYID, with the time of approval in seconds since 1970.
While judge has the database open, this fails with Device. Stop the station, copy the file, and
the one that ends in -wal if there is one, and read the copy.";

/// What `body` does.
pub const BODY: &str = "Prints the unsigned certificate that was approved under a serial";

/// The end of the help of `body`.
pub const BODY_MORE: &str = "Example:
  sshstation body --db copy.db 7 > body";

/// What `policy` does.
pub const POLICY: &str = "Checks a policy and prints the names of its departments";

/// The end of the help of `policy`.
pub const POLICY_MORE: &str = "Example:
  sshstation policy policy";

/// What `retire` does.
pub const RETIRE: &str = "Lowers the last serial";

/// The end of the help of `retire`.
pub const RETIRE_MORE: &str = "Example:
  sshstation retire --db guard.db --last 5000

After a rollover, the last serial is the new CA's first serial minus one.";

/// What `lists` does.
pub const LISTS: &str = "Creates a guard of lists, which has approved no KRL yet";

/// The end of the help of `lists`.
pub const LISTS_MORE: &str = "Example:
  sshstation lists --init --db lists.db

The file is created if it doesn't exist; then only you can read and write it.";

/// What `list` does.
pub const LIST: &str =
    "Decides whether a KRL may follow the last approved one, and records it if it may";

/// The end of the help of `list`.
pub const LIST_MORE: &str = "Example:
  sshstation list --db lists.db --ca ca.pub krl

It prints one line: list SHA256 VERSION TIME or refuse NAME.
A KRL is refused if it is older than the last approved one, has the same version but other bytes, or
takes a revocation back. Approving the first KRL requires --begin.";

/// What `--db` is, for a command that opens a guard.
pub const DATABASE: &str = "The guard's database, created by init";

/// What `--db` is, for `init`.
pub const NEW_DATABASE: &str = "The database to create";

/// What `--init` is, for `lists`.
pub const INIT_LISTS: &str = "Creates the database; required";

/// What `--db` is, for `list`.
pub const LIST_DATABASE: &str = "The database of the guard of lists, created by lists --init";

/// What `--ca` is, for `list`.
pub const LIST_CA: &str =
    "The file with the public-key line of a CA whose certificates the KRL may revoke; one --ca per CA";

/// What `--begin` is.
pub const BEGIN: &str = "Allows a first KRL; without effect once one is approved";

/// What `LIST` is.
pub const LIST_FILE: &str = "The file with the KRL";

/// What `--ca` is, for `init`.
pub const CA_FILE: &str = "The file with the CA's public-key line";

/// What `--first` is.
pub const FIRST: &str = "The first serial, at least 1";

/// What `--last` is, for `init`.
pub const LAST: &str = "The last serial, at most 9223372036854775806";

/// What `--last` is, for `retire`.
pub const NEW_LAST: &str = "The new last serial, not below any approved one";

/// What `--policy` is.
pub const POLICY_OPTION: &str = "The file with the policy: the departments that may be signed for";

/// What `--ahead` is.
pub const AHEAD_SECONDS: &str =
    "How many seconds from now a certificate's validity may begin [default: 3600]";

/// What `BODY` is.
pub const BODY_FILES: &str =
    "The files of unsigned certificates, or - to read them from standard input";

/// What `SERIAL` is.
pub const SERIAL: &str = "The certificate's serial, 1 to 18446744073709551615";

/// What `FILE` is.
pub const POLICY_FILE: &str = "The file with the policy";
