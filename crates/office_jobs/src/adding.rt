//! Theorems about what jobs add to the history that the tables represent.

ghost use Rattle.office_jobs.specs.Adding.{JobsAddArrivals, ServersAddArrivals};

use sqlite::{Alter, Connection};

/// A job adds arrivals to the history that the tables represent, and removes none. The same holds for a server.
pub fn jobs_add_arrivals<S: Alter>(conn: &Connection<S>)
    ensures jobs { JobsAddArrivals S.Store conn.now }
    ensures servers { ServersAddArrivals S.Store conn.now }
{
    let _ = conn;
}
