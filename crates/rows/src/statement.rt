//! The answer of a statement that returns no rows.

ghost use Rattle.std.specs.Prelude.{IfErr};
ghost use Rattle.store_sql.specs.Done.{IsDone};
ghost use Rattle.store_sql.specs.Faults.{IsOfStatement};

use sqlite::Error;
use store_sql::Fault;

/// The answer of a statement that returns no rows.
pub fn done(answer: Result<usize, Error>) -> Result<(), Fault>
    ensures is { IsDone answer result }
    ensures undamaged { IfErr result IsOfStatement }
{
    match answer {
        Ok(_) => Ok(()),
        Err(error) => Err(Fault::from(error)),
    }
}
