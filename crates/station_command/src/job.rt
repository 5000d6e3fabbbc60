//! What the words ask for.

/// Which unsigned certificates (bodies) are judged, and by which policy.
#[derive(Drop)]
pub struct Judging {
    /// Path of the database.
    pub db: String,
    /// Path of the policy.
    pub policy: String,
    /// How many seconds from now a validity may begin.
    pub ahead: u64,
    /// Paths of the bodies, at least one.
    pub bodies: Vec<String>,
}

/// Which KRL is judged, and for which CAs.
#[derive(Drop)]
pub struct Listing {
    /// Path of the database.
    pub db: String,
    /// Paths of the files with the CAs' public-key lines, at least one.
    pub cas: Vec<String>,
    /// Whether a first KRL may be approved.
    pub begins: bool,
    /// Path of the KRL.
    pub list: String,
}

/// What the words ask for. A path is the text of its word.
#[derive(Drop)]
pub enum StationJob {
    /// Creates a guard in a new database.
    Init {
        /// Path of the database.
        db: String,
        /// Path of the file with the CA's public-key line.
        ca: String,
        /// The first serial.
        first: u64,
        /// The last serial.
        last: u64,
    },
    /// Judges bodies.
    Judge(Judging),
    /// Prints a line for each approved body.
    Bodies {
        /// Path of the database.
        db: String,
    },
    /// Prints the body that was approved under a serial.
    Body {
        /// Path of the database.
        db: String,
        /// The serial, at least 1.
        serial: u64,
    },
    /// Prints the names of a policy's departments.
    Policy {
        /// Path of the policy.
        file: String,
    },
    /// Lowers the last serial.
    Retire {
        /// Path of the database.
        db: String,
        /// The new last serial.
        last: u64,
    },
    /// Creates a guard of lists in a new database.
    Lists {
        /// Path of the database.
        db: String,
    },
    /// Judges a KRL.
    List(Listing),
}
