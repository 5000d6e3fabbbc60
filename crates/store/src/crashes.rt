//! What a crash leaves between two calls.

ghost use Rattle.sqlite.specs.Held.{state};
ghost use Rattle.store.specs.Meaning.{OutlastsCrashes, StoresWhereOpen};

use crate::register::Store;
use sqlite::Alter;

/// While the connection is open, a crash between two calls leaves the tables of the history that they represent, and
/// nothing else. A connection whose disk has been unfaithful is not open.
pub fn a_crash_leaves_the_history<S: Alter>(store: &Store<S>)
    ensures { OutlastsCrashes (state S.Store store.now.conn) }
{
    let _ = store;
}

/// An open register that represents a history durably represents it: a crash at any time between two calls leaves
/// exactly its tables. After an answer the register is open, so every answered request is stored.
pub fn what_is_open_is_stored<S: Alter>(store: &Store<S>)
    ensures { StoresWhereOpen (state S.Store store.now.conn) }
{
    a_crash_leaves_the_history(store)
}
