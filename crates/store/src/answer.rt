//! Results of allocations, as answers of the tables.

ghost use Rattle.std.specs.Prelude.{◌≡◌};
ghost use Rattle.store.specs.Meaning.{allocated};

use store_sql::Fault;
use text::NoMemory;

/// The result of an allocation as an answer of the tables: a refused one is `NoMemory`.
pub(crate) fn made<T>(value: Result<T, NoMemory>) -> Result<T, Fault>
    ensures { result ≡ allocated value }
{
    match value {
        Ok(value) => Ok(value),
        Err(_) => Err(Fault::NoMemory),
    }
}
