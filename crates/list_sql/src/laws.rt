//! Theorems about a list guard from run to run: functions without a body, whose contracts a caller cites.

ghost use Rattle.sqlite.specs.Held.{state};
ghost use Rattle.list_sql.specs.Lives.{LivesGrow, RunsGoOn};
ghost use Rattle.list_sql.specs.Runs.{FoundIsHad, HeldIsHad, NoneIsBlank};

use sqlite::{Alter, Connection};

/// What a new connection has, if it has the database that its files held.
pub fn what_is_found_is_had<S: Alter>(conn: &Connection<S>)
    // Each list guard whose rows its trees hold.
    ensures rows { FoundIsHad (state S.Store conn.now) }

    // So each list guard that the files held.
    ensures held { HeldIsHad (state S.Store conn.now) }

    // If they held none, it has no table, so that one can be made.
    ensures blank { NoneIsBlank (state S.Store conn.now) }
{
    let _ = conn;
}

/// After every sequence of runs, the lists that were stated never revoke less, versions never go back, and lists of one
/// version are equal, byte by byte. Each run may have ended in a crash, and the files may have been absent at first.
/// The same holds after one further run.
pub fn lives_only_grow()
    ensures grow { LivesGrow }
    ensures goes_on { RunsGoOn }
{}
