//! Writing decisions.
//!
//! Large values are dropped explicitly: if one lives to a function's end, the proof takes each of its fields apart.

ghost use Rattle.std.specs.Prelude.{◌≡◌, ◌++◌, ◌∷◌, [], IfOk, OnOk, OnErr};
ghost use Rattle.office.specs.Decided.{HasRoom, IsLawfulChange, changed};
ghost use Rattle.memory_store.specs.Contents.{WritesDecision, state_of};
ghost use Rattle.office.specs.History.{kept_of};

use crate::departments::put_department;
use crate::issued::sign;
use crate::key_ids::put_key_id;
use crate::store::PlainStore;
use office::{Arrival, Change, Decision, Kept};
use std::alloc::Global;
use text::{NoMemory, Text};

impl PlainStore {
    /// Makes one change. A refused allocation changes nothing.
    fn make(&mut self, alloc: Global, change: Change) -> Result<(), NoMemory>
        requires room { HasRoom change (state_of self.old) }
        requires lawful { IsLawfulChange change }
        ensures ok { OnOk result (state_of self.new ≡ changed change (state_of self.old)) }
        ensures kept { self.new.kept ≡ self.old.kept }
        ensures err { OnErr result (self.new ≡ self.old) }
    {
        match change {
            Change::Nothing => {}
            Change::Department(department) => put_department(&mut self.departments, department)?,
            Change::Certificate(certificate) => self.certificates.push(certificate)?,
            Change::Signature { serial, signature } => {
                let place = serial.saturating_sub(self.opening.first) as usize;
                sign(&mut self.certificates, place, signature);
            }
            Change::Range(range) => {
                self.revoked.add_range(alloc, range.lo, range.hi)?;
            }
            Change::KeyId(key_id) => put_key_id(&mut self.revoked_key_ids, key_id)?,
            Change::Ca(ca) => self.cas.push(ca)?,
        }
        Ok(())
    }

    /// Makes one change, and keeps a row. A refused allocation changes nothing.
    fn keep(&mut self, alloc: Global, row: Kept, change: Change) -> Result<(), NoMemory>
        requires room { HasRoom change (state_of self.old) }
        requires lawful { IsLawfulChange change }
        ensures ok { OnOk result (state_of self.new ≡ changed change (state_of self.old)) }
        ensures kept { OnOk result (self.new.kept ≡ self.old.kept ++ row ∷ []) }
        ensures err { OnErr result (self.new ≡ self.old) }
    {
        if let Err(refused) = self.kept.push(row) {
            drop(change);
            return Err(NoMemory::from(refused));
        }
        let made = self.make(alloc, change);
        if made.is_err() {
            drop(self.kept.pop());
        }
        made
    }

    /// Writes a decision, and a row for the arrival. A refused allocation changes nothing.
    fn write(&mut self, alloc: Global, arrival: Arrival, decision: Decision) -> Result<(), NoMemory>
        requires room { HasRoom decision.change (state_of self.old) }
        requires lawful { IsLawfulChange decision.change }
        ensures ok { OnOk result (WritesDecision self.old arrival decision self.new) }
        ensures err { OnErr result (self.new ≡ self.old) }
    {
        let Decision {
            reply,
            change,
            version,
            date,
            ..
        } = decision;
        self.keep(alloc, row_of(arrival, reply), change)?;
        self.version = version;
        self.date = date;
        Ok(())
    }

    /// Writes a decision, and returns the reply. A refused allocation changes nothing.
    pub(crate) fn accept(
        &mut self,
        alloc: Global,
        arrival: Arrival,
        decision: Decision,
    ) -> Result<Text, NoMemory>
        requires room { HasRoom decision.change (state_of self.old) }
        requires lawful { IsLawfulChange decision.change }
        ensures reply { IfOk result (λ reply. reply ≡ decision.reply) }
        ensures ok { OnOk result (WritesDecision self.old arrival decision self.new) }
        ensures err { OnErr result (self.new ≡ self.old) }
    {
        match decision.reply.copied(alloc) {
            Ok(reply) => {
                self.write(alloc, arrival, decision)?;
                Ok(reply)
            }
            Err(refused) => {
                drop(arrival);
                drop(decision);
                Err(refused)
            }
        }
    }
}

/// The row that is kept for an arrival with its reply.
fn row_of(arrival: Arrival, reply: Text) -> Kept
    ensures { result ≡ kept_of arrival reply }
{
    let Arrival {
        caller,
        key,
        bytes,
        ..
    } = arrival;
    Kept {
        caller,
        key,
        bytes,
        reply,
    }
}
