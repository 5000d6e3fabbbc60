//! The in-memory office (trial office): an office for exchanges that needs no database, with one CA and one department.

ghost use Rattle.std.specs.Prelude.{◌≡◌, [], ◌∷◌, IfOk, OnOk};
ghost use Rattle.office.specs.Openings.{IsOpening};
ghost use Rattle.office.specs.Registers.{MeansOneMore};
ghost use Rattle.office.specs.Shows.{Shows};
ghost use Rattle.memory_store.specs.Contents.{state_of};
ghost use Rattle.trial.specs.TrialOffice.{trial_arrival, trial_opening};

use memory_store::PlainStore;
use office::{Arrival, Opening, Outcome, Registry, StoreFault};
use std::alloc::Global;
use text::{NoMemory, Text};
use values::LAST_SERIAL;

const CA_KEY: [u8; 32] = [0x11; 32];

// The arrival issues no certificate.
const NO_NONCE: [u8; 32] = [0; 32];

const FIRST_SERIAL: u64 = 1;

const MESSAGE: &str = "department web\n\
    kind user\n\
    admins ana\n\
    principals alice,*@example.org\n\
    options force-command\n\
    extensions permit-X11-forwarding,permit-agent-forwarding,permit-pty\n\
    maxlife 86400\n\
    namespaces file,git\n";

fn trial_opening(alloc: Global) -> Result<Opening, StoreFault>
    ensures lawful { IfOk result IsOpening }
    ensures ok { IfOk result (λ o. o ≡ trial_opening) }
{
    let root = String::from_str(alloc, "root").map_err(NoMemory::from)?;
    let station = String::from_str(alloc, "station").map_err(NoMemory::from)?;
    match Opening::new(CA_KEY, root, station, FIRST_SERIAL, LAST_SERIAL) {
        Ok(opening) => Ok(opening),
        Err(_) => Err(StoreFault::Damaged),
    }
}

fn trial_arrival(alloc: Global) -> Result<Arrival, NoMemory>
    ensures { IfOk result (λ a. a ≡ trial_arrival) }
{
    Ok(Arrival {
        caller: Text::from_slice(alloc, b"root")?,
        key: Text::from_slice(alloc, b"trial-web")?,
        bytes: Text::from_slice(alloc, MESSAGE.as_bytes())?,
        moment: 0,
        nonce: NO_NONCE,
    })
}

// Makes the in-memory office's department.
fn put_department<R: Registry>(office: &mut R, alloc: Global) -> Result<(), StoreFault>
    ensures { R.is_honest office.new → OnOk result (MeansOneMore R.means trial_arrival office.old office.new) }
{
    let arrival = trial_arrival(alloc)?;
    match office.apply(alloc, arrival)? {
        Outcome::Accepted(_) => Ok(()),
        Outcome::Repeated(_) | Outcome::Refused(_) => Err(StoreFault::Damaged),
    }
}

// An office in which nothing has happened.
fn new_office(alloc: Global) -> Result<PlainStore, StoreFault>
    ensures { IfOk result (λ s. Shows (state_of s) s.kept trial_opening []) }
{
    let opening = trial_opening(alloc)?;
    match PlainStore::new(alloc, opening) {
        Ok(office) => Ok(office),
        Err(refused) => Err(StoreFault::from(refused)),
    }
}

/// The in-memory office: the initial configuration, and then the department.
pub(crate) fn trial_office(alloc: Global) -> Result<PlainStore, StoreFault>
    ensures { IfOk result (λ s. Shows (state_of s) s.kept trial_opening (trial_arrival ∷ [])) }
{
    let mut office = new_office(alloc)?;
    match put_department(&mut office, alloc) {
        Ok(()) => Ok(office),
        Err(fault) => {
            drop(office);
            Err(fault)
        }
    }
}
