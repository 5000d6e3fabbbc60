//! The interface of a store to the layers above.

ghost use Rattle.std.specs.Prelude.{◌≡◌, ◌++◌, [], ◌∷◌, List, IfOk, OnOk, OnErr, IfErr};
ghost use Rattle.office.specs.declared.opening.Opening.{Opening};
ghost use Rattle.office.specs.declared.arrival.Arrival.{Arrival};
ghost use Rattle.office.specs.Machine.{body_of};
ghost use Rattle.office.specs.Listing.{AreRevocations, batch_of};
ghost use Rattle.office.specs.Publication.{AreRevoked, departments_of, issued_of, pending_of};
ghost use Rattle.office.specs.History.{due, state};
ghost use Rattle.office.specs.Shows.{IsOffice};
ghost use Rattle.office.specs.Faults.{HasRegisterCause};
ghost use Rattle.office.specs.Registers.{AnswersBy, FailsAsARegister, FailsWithin, FailuresPersist, IsShortIfAccepted};
ghost use Rattle.office.specs.Registers.{MeansOneMore, MeansTheSame, Preserves, UnlessAccepted};

use crate::arrival::{Arrival, Outcome};
use crate::ca::Ca;
use crate::certificate::Certificate;
use crate::listing::{Revocations, place_behind};
use crate::publication::{Issued, Pending, Revoked};
use crate::store_fault::StoreFault;
use message::Department;
use std::alloc::Global;
use text::Text;

/// An office's register: the operations that the tables, or the lists in memory, offer to the layers above.
///
/// A register is honest while its disk has been faithful; once lost, honesty doesn't return. The clauses of a call,
/// other than `cause`, assume that the register is honest after it. A call that answers was made on an open register,
/// and leaves it open; a register that a failed disk has shut stays shut and only returns faults. A reading call
/// preserves what the register means, and so does a fault; while the register is open, the stored rows are then
/// unchanged too, even if they mean no history, for example in damaged tables. An arrival that is refused or repeated
/// leaves them unchanged in the same way. `Device` is returned only if the database failed, or refused the rows of an
/// arrival, and a register that means a history returns no other fault than lack of memory.
pub trait Registry {
    /// So far every answer of the disk was faithful.
    ghost is_honest: { Self → Type 0 };

    /// No failed disk has shut it.
    ghost is_open: { Self → Type 0 };

    /// The stored rows are the same in both, whatever they mean.
    ghost is_as_before: { Self → Self → Type 0 };

    /// The database failed between the two, or the register was shut before.
    ghost fails: { Self → Self → Type 0 };

    /// As `fails`, or the constraints of the database refused the rows of this arrival.
    ghost stops: { Self → Self → Arrival → Type 0 };

    /// Unless a failed disk has shut it, it shows the office with this valid opening after this history.
    ghost means: { Self → Opening → List Arrival → Type 0 };

    /// Handles the next arrival: the stored reply, a first acceptance or a refusal, as specified. After a fault the
    /// register means what it meant. Only an acceptance changes the stored rows, whatever they mean, and its reply has
    /// at most 99 bytes.
    fn apply(&mut self, alloc: Global, arrival: Arrival) -> Result<Outcome, StoreFault>
        ensures failures { FailuresPersist is_honest is_open self.old self.new }
        ensures stays_open { is_honest self.new → OnOk result (is_open self.new) }
        ensures due { is_honest self.new → AnswersBy means self.old result (λ o l outcome. outcome ≡ due o l arrival) }
        ensures next { is_honest self.new → OnOk result (MeansOneMore means arrival self.old self.new) }
        ensures fault { is_honest self.new → OnErr result (MeansTheSame means self.old self.new) }
        ensures before { is_honest self.new → is_open self.new
            → UnlessAccepted result (is_as_before self.old self.new) }
        ensures short { is_honest self.new → IfOk result IsShortIfAccepted }
        ensures cause { IfErr result (λ e. HasRegisterCause e (stops self.old self.new arrival)) }
        ensures only { is_honest self.new → FailsAsARegister means self.old result };

    /// The CAs by number.
    fn cas(&mut self, alloc: Global) -> Result<Vec<Ca>, StoreFault>
        ensures preserves { Preserves is_honest is_open is_as_before means self.old self.new }
        ensures stays_open { is_honest self.new → OnOk result (is_open self.new) }
        ensures row { is_honest self.new → AnswersBy means self.old result (λ o l cas. cas.items ≡ (state o l).cas) }
        ensures cause { IfErr result (λ e. HasRegisterCause e (fails self.old self.new)) }
        ensures only { is_honest self.new → FailsAsARegister means self.old result };

    /// The body (the unsigned certificate) for a serial, or `None` if the serial wasn't issued.
    fn body(&mut self, alloc: Global, serial: u64) -> Result<Option<Text>, StoreFault>
        ensures preserves { Preserves is_honest is_open is_as_before means self.old self.new }
        ensures stays_open { is_honest self.new → OnOk result (is_open self.new) }
        ensures row { is_honest self.new → AnswersBy means self.old result
            (λ o l body. body ≡ body_of (state o l) serial) }
        ensures cause { IfErr result (λ e. HasRegisterCause e (fails self.old self.new)) }
        ensures only { is_honest self.new → FailsAsARegister means self.old result };

    /// The certificate for a serial, or `None` if the serial wasn't issued.
    fn certificate(&mut self, alloc: Global, serial: u64) -> Result<Option<Issued>, StoreFault>
        ensures preserves { Preserves is_honest is_open is_as_before means self.old self.new }
        ensures stays_open { is_honest self.new → OnOk result (is_open self.new) }
        ensures row { is_honest self.new → AnswersBy means self.old result
            (λ o l issued. issued ≡ issued_of (state o l) serial) }
        ensures cause { IfErr result (λ e. HasRegisterCause e (fails self.old self.new)) }
        ensures only { is_honest self.new → FailsAsARegister means self.old result };

    /// The contents of the published list.
    fn revoked(&mut self, alloc: Global) -> Result<Revoked, StoreFault>
        ensures preserves { Preserves is_honest is_open is_as_before means self.old self.new }
        ensures stays_open { is_honest self.new → OnOk result (is_open self.new) }
        ensures row { is_honest self.new → AnswersBy means self.old result
            (λ o l revoked. AreRevoked revoked (state o l)) }
        ensures cause { IfErr result (λ e. HasRegisterCause e (fails self.old self.new)) }
        ensures only { is_honest self.new → FailsAsARegister means self.old result };

    /// The departments by name.
    fn departments(&mut self, alloc: Global) -> Result<Vec<Department>, StoreFault>
        ensures preserves { Preserves is_honest is_open is_as_before means self.old self.new }
        ensures stays_open { is_honest self.new → OnOk result (is_open self.new) }
        ensures row { is_honest self.new → AnswersBy means self.old result
            (λ o l rows. rows.items ≡ departments_of (state o l)) }
        ensures cause { IfErr result (λ e. HasRegisterCause e (fails self.old self.new)) }
        ensures only { is_honest self.new → FailsAsARegister means self.old result };

    /// The serials and the key IDs that are revoked.
    fn revocations(&mut self, alloc: Global) -> Result<Revocations, StoreFault>
        ensures preserves { Preserves is_honest is_open is_as_before means self.old self.new }
        ensures stays_open { is_honest self.new → OnOk result (is_open self.new) }
        ensures row { is_honest self.new → AnswersBy means self.old result
            (λ o l revocations. AreRevocations revocations (state o l)) }
        ensures cause { IfErr result (λ e. HasRegisterCause e (fails self.old self.new)) }
        ensures only { is_honest self.new → FailsAsARegister means self.old result };

    /// Certificates by serial, the first at place 0: at most 1000 of them from this place on, and none at the end.
    fn certificates(&mut self, alloc: Global, place: u64) -> Result<Vec<Certificate>, StoreFault>
        ensures preserves { Preserves is_honest is_open is_as_before means self.old self.new }
        ensures stays_open { is_honest self.new → OnOk result (is_open self.new) }
        ensures row { is_honest self.new → AnswersBy means self.old result
            (λ o l rows. rows.items ≡ batch_of (state o l) place) }
        ensures cause { IfErr result (λ e. HasRegisterCause e (fails self.old self.new)) }
        ensures only { is_honest self.new → FailsAsARegister means self.old result };

    /// The certificates that are neither signed nor revoked, by serial. The default implementation looks through all
    /// certificates.
    fn pending(&mut self, alloc: Global) -> Result<Vec<Pending>, StoreFault>
        ensures preserves { Preserves is_honest is_open is_as_before means self.old self.new }
        ensures stays_open { is_honest self.new → OnOk result (is_open self.new) }
        ensures row { is_honest self.new → AnswersBy means self.old result
            (λ o l rows. rows.items ≡ pending_of (state o l)) }
        ensures cause { is_honest self.new → IfErr result
            (λ e. HasRegisterCause e (FailsWithin means fails self.old self.new)) }
        ensures only { is_honest self.new → FailsAsARegister means self.old result }
    {
        let revocations = self.revocations(alloc)?;
        let mut rows = Vec::new(alloc);
        let mut place = 0;
        'batches: loop {
            let batch = self.certificates(alloc, place)?;
            revocations.push_waiting(&mut rows, &batch)?;
            let next = place_behind(place, &batch)?;
            if next == place {
                return Ok(rows);
            }
            place = next;
        }
    }

    /// The stored rows are the same if no call is made.
    ghost unasked: { (s : Self) → is_as_before s s };

    /// The stored rows are the same after two successive calls if they are after each of them.
    ghost through: { (a b c : Self) → is_as_before a b → is_as_before b c → is_as_before a c };

    /// It shows no office whose opening is invalid, nor one whose version has no successor.
    ghost lawful: { (s : Self) (o : Opening) (l : List Arrival) → means s o l → IsOffice o l };
}
