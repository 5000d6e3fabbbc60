//! The in-memory office (trial office): an office for exchanges that needs no database, with one CA and one department.
//!
//! Its initial configuration and the arrival that makes its department are constants, and it represents exactly these.

ghost use Rattle.std.specs.Prelude.{◌≡◌, ◌++◌, [], ◌∷◌, IfOk};
ghost use Rattle.sqlite.specs.Held.{state};
ghost use Rattle.sqlite.specs.Steps.{over_memory};
ghost use Rattle.store_sql.specs.Honest.{On};
ghost use Rattle.office.specs.declared.opening.Opening.{Opening};
ghost use Rattle.office.specs.declared.arrival.Arrival.{Arrival};
ghost use Rattle.office.specs.Openings.{IsOpening};
ghost use Rattle.store.specs.Meaning.{Tells};
ghost use Rattle.office_jobs.specs.TrialOffice.{TellsTrial, opening_of, trial_arrival};

use office::{Arrival, Opening, Outcome, Registry, StoreFault};
use sqlite::{Alter, Connection, MemStore};
use std::alloc::Global;
use store::Store;
use text::{NoMemory, Text};
use values::LAST_SERIAL;

const CA_KEY: [u8; 32] = [0x11; 32];

// The arrival issues no certificate.
const NO_NONCE: [u8; 32] = [0; 32];

const FIRST_SERIAL: u64 = 1;

const MESSAGE: &str = "department web\n\
    kind user\n\
    admins ana\n\
    principals alice,*@example.org\n\
    options force-command\n\
    extensions permit-X11-forwarding,permit-agent-forwarding,permit-pty\n\
    maxlife 86400\n\
    namespaces file,git\n";

/// An office in memory.
pub type MemoryOffice = Store<MemStore>;

/// An initial configuration with the in-memory office's CA and names, or `Damaged` if the serials are invalid.
pub fn opening_of(alloc: Global, first: u64, last: u64) -> Result<Opening, StoreFault>
    ensures lawful { IfOk result IsOpening }
    ensures ok { IfOk result (λ o. o ≡ opening_of first last) }
{
    let root = String::from_str(alloc, "root").map_err(NoMemory::from)?;
    let station = String::from_str(alloc, "station").map_err(NoMemory::from)?;
    match Opening::new(CA_KEY, root, station, first, last) {
        Ok(opening) => Ok(opening),
        Err(_) => Err(StoreFault::Damaged),
    }
}

fn trial_arrival(alloc: Global) -> Result<Arrival, NoMemory>
    ensures { IfOk result (λ a. a ≡ trial_arrival) }
{
    Ok(Arrival {
        caller: Text::from_slice(alloc, b"root")?,
        key: Text::from_slice(alloc, b"trial-web")?,
        bytes: Text::from_slice(alloc, MESSAGE.as_bytes())?,
        moment: 0,
        nonce: NO_NONCE,
    })
}

/// Makes the in-memory office's department.
pub fn put_department<S: Alter>(store: &mut Store<S>, alloc: Global) -> Result<(), StoreFault>
    ensures { On S.Store TellsTrial store.old.conn store.new.conn result }
{
    let arrival = trial_arrival(alloc)?;
    match store.apply(alloc, arrival)? {
        Outcome::Accepted(_) => Ok(()),
        Outcome::Repeated(_) | Outcome::Refused(_) => Err(StoreFault::Damaged),
    }
}

/// An office in memory with this initial configuration, in which nothing has happened.
pub fn office_in_memory(alloc: Global, opening: &Opening) -> Result<MemoryOffice, StoreFault>
    requires { IsOpening opening.now }
    ensures { IfOk result (λ s. Tells (state over_memory s.conn) opening.now []) }
{
    let Ok(conn) = Connection::open_in_memory(alloc) else {
        return Err(StoreFault::NoMemory);
    };
    match Store::init(alloc, conn, opening) {
        Ok(store) => Ok(store),
        Err((fault, _)) => Err(fault),
    }
}

/// The in-memory office: the initial configuration, and then the department.
pub fn trial_office(alloc: Global) -> Result<MemoryOffice, StoreFault>
    ensures { IfOk result (λ s. Tells (state over_memory s.conn) (opening_of 1 9223372036854775806)
        (trial_arrival ∷ [])) }
{
    let opening = opening_of(alloc, FIRST_SERIAL, LAST_SERIAL)?;
    let mut store = office_in_memory(alloc, &opening)?;
    match put_department(&mut store, alloc) {
        Ok(()) => Ok(store),
        Err(fault) => {
            let _ = store.into_connection();
            Err(fault)
        }
    }
}
