//! Why a job was not done.

use crate::file_opening::kind_fault;
use crate::file_reader::ReadFault;
use exchanges::{ExchangesFault, RunFault};
use headline::PublishFault;
use krl::KrlFault;
use lines::LineFault;
use office::{OpeningFault, StoreFault};
use server::SelftestFault;

/// Why a job was not done. It is printed as its name (`specs/Names`).
#[derive(Clone, Copy, Debug, PartialEq, Eq)]
pub enum JobFault {
    /// A file can't be read, or a public-key file or a list is longer than any may be.
    File,
    /// The output can't be written.
    Write,
    /// No listener could be made.
    Socket,
    /// The connection to the office itself wasn't served.
    Connection(server::Fault),
    /// The office's answer to its own request isn't the specified one.
    Mismatch,
    /// An allocation failed.
    NoMemory,
    /// This record of an exchange file, counted from 1, is the first bad one.
    BadExchange(usize),
    /// The CA file holds no public-key line.
    Line(LineFault),
    /// No office can begin with this configuration.
    Opening(OpeningFault),
    /// The bytes aren't a list that this program can read.
    List(KrlFault),
    /// The register didn't answer, or its database can't be opened, made, migrated or closed.
    Store(StoreFault),
    /// An exchange got no response.
    Fault,
}

impl From<text::NoMemory> for JobFault {
    ghost use Rattle.std.specs.Prelude.{◌≡◌};
    ghost use Rattle.office_jobs.specs.declared.job_fault.JobFault.TheVariants.{NoMemory};

    ghost from_gives = { λ _ e. e ≡ NoMemory };

    fn from(_e: text::NoMemory) -> JobFault {
        JobFault::NoMemory
    }
}

impl From<ReadFault> for JobFault {
    ghost use Rattle.std.specs.Prelude.{◌≡◌};
    ghost use Rattle.office_jobs.specs.Faults.{of_reading};

    ghost from_gives = { λ fault e. e ≡ of_reading fault };

    fn from(fault: ReadFault) -> JobFault {
        match fault {
            ReadFault::TooLong => JobFault::File,
            ReadFault::Failed(kind) => kind_fault(kind),
        }
    }
}

impl From<StoreFault> for JobFault {
    ghost use Rattle.std.specs.Prelude.{◌≡◌};
    ghost use Rattle.office_jobs.specs.Faults.{of_store};

    ghost from_gives = { λ fault e. e ≡ of_store fault };

    fn from(fault: StoreFault) -> JobFault {
        match fault {
            StoreFault::NoMemory => JobFault::NoMemory,
            other => JobFault::Store(other),
        }
    }
}

impl From<ExchangesFault> for JobFault {
    ghost use Rattle.std.specs.Prelude.{◌≡◌};
    ghost use Rattle.office_jobs.specs.Faults.{of_exchanges};

    ghost from_gives = { λ fault e. e ≡ of_exchanges fault };

    fn from(fault: ExchangesFault) -> JobFault {
        match fault {
            ExchangesFault::BadExchange(record) => JobFault::BadExchange(record),
            ExchangesFault::NoMemory => JobFault::NoMemory,
        }
    }
}

impl From<RunFault> for JobFault {
    ghost use Rattle.std.specs.Prelude.{◌≡◌};
    ghost use Rattle.office_jobs.specs.Faults.{of_run};

    ghost from_gives = { λ fault e. e ≡ of_run fault };

    fn from(fault: RunFault) -> JobFault {
        match fault {
            RunFault::NoMemory => JobFault::NoMemory,
            RunFault::Write => JobFault::Write,
            RunFault::Fault => JobFault::Fault,
        }
    }
}

impl From<PublishFault> for JobFault {
    ghost use Rattle.std.specs.Prelude.{◌≡◌};
    ghost use Rattle.office_jobs.specs.Faults.{of_publishing};

    ghost from_gives = { λ fault e. e ≡ of_publishing fault };

    fn from(fault: PublishFault) -> JobFault {
        match fault {
            PublishFault::Store(fault) => JobFault::from(fault),
            PublishFault::Write => JobFault::Write,
        }
    }
}

impl From<LineFault> for JobFault {
    ghost use Rattle.std.specs.Prelude.{◌≡◌};
    ghost use Rattle.office_jobs.specs.Faults.{of_line};

    ghost from_gives = { λ fault e. e ≡ of_line fault };

    fn from(fault: LineFault) -> JobFault {
        match fault {
            LineFault::NoMemory => JobFault::NoMemory,
            other => JobFault::Line(other),
        }
    }
}

impl From<OpeningFault> for JobFault {
    ghost use Rattle.std.specs.Prelude.{◌≡◌};
    ghost use Rattle.office_jobs.specs.declared.job_fault.JobFault.TheVariants.{Opening};

    ghost from_gives = { λ fault e. e ≡ Opening fault };

    fn from(fault: OpeningFault) -> JobFault {
        JobFault::Opening(fault)
    }
}

impl From<KrlFault> for JobFault {
    ghost use Rattle.std.specs.Prelude.{◌≡◌};
    ghost use Rattle.office_jobs.specs.declared.job_fault.JobFault.TheVariants.{List};

    ghost from_gives = { λ fault e. e ≡ List fault };

    fn from(fault: KrlFault) -> JobFault {
        JobFault::List(fault)
    }
}

impl From<SelftestFault> for JobFault {
    ghost use Rattle.std.specs.Prelude.{◌≡◌};
    ghost use Rattle.office_jobs.specs.Faults.{of_selftest};

    ghost from_gives = { λ fault e. e ≡ of_selftest fault };

    fn from(fault: SelftestFault) -> JobFault {
        match fault {
            SelftestFault::Unserved(fault) => JobFault::Connection(fault),
            SelftestFault::Mismatch => JobFault::Mismatch,
        }
    }
}
