//! Why a job wasn't done.

use guard::{PolicyFault, RegisterFault, RetireFault};
use lines::LineFault;

/// Why a job wasn't done. `tell_fault` prints its name.
#[derive(Clone, Copy, Debug, PartialEq, Eq)]
pub enum StationFault {
    /// A file or the input can't be read, or a file is longer than any of its kind.
    File,
    /// The input doesn't fit the form of batches.
    Input,
    /// The output can't be written.
    Write,
    /// An allocation was refused.
    NoMemory,
    /// The clock failed, or is past the latest time.
    Clock,
    /// This line of the policy, counted from 1, is invalid.
    BadPolicy(u64),
    /// The CA's file doesn't have a valid public-key line.
    Line(LineFault),
    /// The serials can't be those of a guard, or the new last one isn't one of the guard's.
    BadSerials,
    /// An unsigned certificate (body) is approved under a serial above the new last one.
    SerialApproved,
    /// No body is approved under the serial.
    UnknownSerial,
    /// The database has a table with a name that a guard needs.
    AlreadyAGuard,
    /// The database doesn't exist, or has no guard.
    NotAGuard,
    /// The guard's tables have another schema.
    WrongSchema,
    /// A row isn't one that a guard writes.
    Damaged,
    /// The database failed.
    Device,
}

impl From<text::NoMemory> for StationFault {
    ghost use Rattle.std.specs.Prelude.{◌≡◌};
    ghost use Rattle.station_jobs.specs.declared.station_fault.StationFault.TheVariants.{NoMemory};

    ghost from_gives = { λ _ e. e ≡ NoMemory };

    fn from(_e: text::NoMemory) -> StationFault {
        StationFault::NoMemory
    }
}

impl From<RegisterFault> for StationFault {
    ghost use Rattle.std.specs.Prelude.{◌≡◌};
    ghost use Rattle.station_jobs.specs.Faults.{of_register};

    ghost from_gives = { λ fault e. e ≡ of_register fault };

    fn from(fault: RegisterFault) -> StationFault {
        match fault {
            RegisterFault::NoMemory => StationFault::NoMemory,
            RegisterFault::Device => StationFault::Device,
            RegisterFault::Damaged => StationFault::Damaged,
        }
    }
}

impl From<RetireFault> for StationFault {
    ghost use Rattle.std.specs.Prelude.{◌≡◌};
    ghost use Rattle.station_jobs.specs.Faults.{of_retiring};

    ghost from_gives = { λ fault e. e ≡ of_retiring fault };

    fn from(fault: RetireFault) -> StationFault {
        match fault {
            RetireFault::Register(fault) => StationFault::from(fault),
            RetireFault::BadSerials => StationFault::BadSerials,
            RetireFault::SerialApproved => StationFault::SerialApproved,
        }
    }
}

impl From<PolicyFault> for StationFault {
    ghost use Rattle.std.specs.Prelude.{◌≡◌};
    ghost use Rattle.station_jobs.specs.Faults.{of_policy};

    ghost from_gives = { λ fault e. e ≡ of_policy fault };

    fn from(fault: PolicyFault) -> StationFault {
        match fault {
            PolicyFault::TooLong => StationFault::File,
            PolicyFault::BadPolicy(line) => StationFault::BadPolicy(line),
            PolicyFault::NoMemory => StationFault::NoMemory,
        }
    }
}

impl From<LineFault> for StationFault {
    ghost use Rattle.std.specs.Prelude.{◌≡◌};
    ghost use Rattle.station_jobs.specs.Faults.{of_line};

    ghost from_gives = { λ fault e. e ≡ of_line fault };

    fn from(fault: LineFault) -> StationFault {
        match fault {
            LineFault::NoMemory => StationFault::NoMemory,
            other => StationFault::Line(other),
        }
    }
}
