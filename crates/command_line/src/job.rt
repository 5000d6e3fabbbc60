//! What the words ask for.

/// What the words ask for. A path is the text of its word. An option that was omitted is `None`.
#[derive(Drop)]
pub enum Job {
    /// Creates an office in a new database.
    Init {
        /// Path of the database.
        db: String,
        /// Path of the file with the CA's public-key line.
        ca: String,
        /// The caller that may do everything except deliver signatures.
        root: String,
        /// The caller that delivers signatures.
        station: String,
        /// The first serial.
        first: u64,
        /// The last serial.
        last: u64,
    },
    /// Answers the requests in a file, with the office in a database or with a new one in memory.
    Apply {
        /// Path of the database, or `None` for a new office in memory.
        db: Option<String>,
        /// Path of the exchange file.
        file: String,
    },
    /// Serves connections, one at a time.
    Serve {
        /// Path of the database.
        db: String,
        /// The port on 127.0.0.1. With 0, the system chooses.
        port: u16,
        /// How many connections are served, 1 to `MOST_CONNECTIONS`.
        connections: u64,
        /// Path of the file from which nonces are read.
        nonces: String,
    },
    /// Prints the KRL.
    Krl {
        /// Path of the database.
        db: String,
    },
    /// Prints the allowed signers.
    Signers {
        /// Path of the database.
        db: String,
    },
    /// Prints the table report.
    Table {
        /// Path of the database.
        db: String,
    },
    /// Checks whether a KRL revokes a certificate.
    Check {
        /// Path of the file with the CA's public-key line.
        ca: String,
        /// Path of the KRL.
        list: String,
        /// The certificate's serial, at least 1.
        serial: u64,
        /// The certificate's key ID.
        key_id: String,
    },
    /// Migrates a database from schema 1 to schema 2.
    Migrate {
        /// Path of the database.
        db: String,
    },
    /// Sends a request to an in-memory office over a socket and checks the answer.
    Selftest,
}
