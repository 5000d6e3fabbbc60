//! Why a call on the tables fails.

ghost use Rattle.std.specs.Prelude.{IfErr};
ghost use Rattle.store_sql.specs.Done.{IsDone};
ghost use Rattle.store_sql.specs.Faults.{IsOfStatement};

use sqlite::{Error, ErrorCode};

/// Why a call on the tables fails.
#[derive(Clone, Copy, Debug, PartialEq, Eq)]
pub enum Fault {
    /// The database failed for another reason than memory, such as its disk or a size limit, or refused the statement.
    Device,
    /// A row isn't of the form of its table.
    Damaged,
    /// Memory was refused.
    NoMemory,
}

impl From<Error> for Fault {
    ghost use Rattle.std.specs.Prelude.{◌≡◌};
    ghost use Rattle.store_sql.specs.Faults.{fault_of};

    ghost from_gives = { λ error fault. fault ≡ fault_of error };

    fn from(error: Error) -> Fault {
        match error {
            Error::SqliteFailure(ErrorCode::OutOfMemory) => Fault::NoMemory,
            _ => Fault::Device,
        }
    }
}

impl From<text::NoMemory> for Fault {
    ghost use Rattle.std.specs.Prelude.{◌≡◌};
    ghost use Rattle.store_sql.specs.declared.table_fault.Fault.TheVariants.{NoMemory};

    ghost from_gives = { λ _ fault. fault ≡ NoMemory };

    fn from(_refused: text::NoMemory) -> Fault {
        Fault::NoMemory
    }
}

/// The result of a statement that reads no rows.
pub(crate) fn done(answer: Result<usize, Error>) -> Result<(), Fault>
    ensures is { IsDone answer result }
    ensures undamaged { IfErr result IsOfStatement }
{
    match answer {
        Ok(_) => Ok(()),
        Err(error) => Err(Fault::from(error)),
    }
}
