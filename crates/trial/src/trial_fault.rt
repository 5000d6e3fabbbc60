//! Why exchanges were not all answered.

use exchanges::{ExchangesFault, RunFault};
use office::StoreFault;
use std::fmt;
use std::io::ErrorKind;

/// Why not all exchanges were answered. It is printed with the name that `sshoffice` prints.
#[derive(Clone, Copy, Debug, PartialEq, Eq)]
pub enum TrialFault {
    /// The file can't be read.
    File,
    /// The output can't be written.
    Write,
    /// An allocation failed.
    NoMemory,
    /// This record of the file, counted from 1, is the first bad one.
    BadExchange(usize),
    /// The in-memory office couldn't be made.
    Store(StoreFault),
    /// An exchange got no response.
    Fault,
}

impl TrialFault {
    ghost use Rattle.std.specs.Prelude.{◌≡◌};
    ghost use Rattle.trial.specs.Faults.{IsOfAFile, of_file};

    /// The fault for a file that can't be opened or read.
    pub fn of_file(kind: ErrorKind) -> TrialFault
        ensures value { result ≡ of_file kind }
        ensures only { IsOfAFile result }
    {
        match kind {
            ErrorKind::OutOfMemory => TrialFault::NoMemory,
            _ => TrialFault::File,
        }
    }
}

impl fmt::Display for TrialFault {
    fn fmt<W: fmt::Write>(&self, f: &mut fmt::Formatter<W>) -> fmt::Result {
        match self {
            TrialFault::BadExchange(record) => write!(f, "BadExchange {record}"),
            TrialFault::Store(fault) => write!(f, "{fault:?}"),
            _ => write!(f, "{self:?}"),
        }
    }
}

impl From<StoreFault> for TrialFault {
    ghost use Rattle.std.specs.Prelude.{◌≡◌};
    ghost use Rattle.trial.specs.Faults.{of_store};

    ghost from_gives = { λ fault e. e ≡ of_store fault };

    fn from(fault: StoreFault) -> TrialFault {
        match fault {
            StoreFault::NoMemory => TrialFault::NoMemory,
            other => TrialFault::Store(other),
        }
    }
}

impl From<ExchangesFault> for TrialFault {
    ghost use Rattle.std.specs.Prelude.{◌≡◌};
    ghost use Rattle.trial.specs.Faults.{of_exchanges};

    ghost from_gives = { λ fault e. e ≡ of_exchanges fault };

    fn from(fault: ExchangesFault) -> TrialFault {
        match fault {
            ExchangesFault::BadExchange(record) => TrialFault::BadExchange(record),
            ExchangesFault::NoMemory => TrialFault::NoMemory,
        }
    }
}

impl From<RunFault> for TrialFault {
    ghost use Rattle.std.specs.Prelude.{◌≡◌};
    ghost use Rattle.trial.specs.Faults.{of_run};

    ghost from_gives = { λ fault e. e ≡ of_run fault };

    fn from(fault: RunFault) -> TrialFault {
        match fault {
            RunFault::NoMemory => TrialFault::NoMemory,
            RunFault::Write => TrialFault::Write,
            RunFault::Fault => TrialFault::Fault,
        }
    }
}
