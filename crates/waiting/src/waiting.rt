//! The register.

ghost use Rattle.std.specs.Prelude.{◌≡◌, [], None, OnOk, OnErr, IfErr};
ghost use Rattle.waiting.specs.Knowing.{MeansKnown};

use crate::asking::asked;
use crate::known::Known;
use crate::revoking::forget_before;
use message::Department;
use office::{
    Arrival, Ca, Certificate, Issued, Outcome, Pending, Registry, Revocations, Revoked, StoreFault,
};
use std::alloc::Global;
use std::mem::replace;
use text::Text;

/// A register over another that remembers in memory which certificates are pending.
#[derive(Drop)]
pub struct Waiting<R: Registry> {
    pub(crate) register: R,
    pub(crate) known: Known,
    // The revocations, unless one came since they were read.
    pub(crate) revoked: Option<Revocations>,
}

impl<R: Registry> Waiting<R> {
    /// Wraps this register. Nothing is read before the first request for the pending certificates.
    pub fn new(alloc: Global, register: R) -> Waiting<R>
        ensures register { result.register ≡ register }
        ensures seen { result.known.seen ≡ 0 }
        ensures rows { result.known.rows.items ≡ [] }
        ensures revoked { result.revoked ≡ None }
    {
        Waiting {
            register,
            known: Known::nothing(alloc),
            revoked: None,
        }
    }

    /// The register below.
    pub fn into_register(self) -> R
        ensures { result ≡ self.register }
    {
        let Waiting {
            register,
            known,
            revoked,
        } = self;
        drop(known);
        drop(revoked);
        register
    }
}

impl<R: Registry> Registry for Waiting<R> {
    ghost is_honest = { λ s. R.is_honest s.register };

    ghost is_open = { λ s. R.is_open s.register };

    ghost is_as_before = { λ old new. R.is_as_before old.register new.register };

    ghost fails = { λ old new. R.fails old.register new.register };

    ghost stops = { λ old new a. R.stops old.register new.register a };

    ghost means = { λ s o l. MeansKnown R.means s.register s.known.seen s.known.rows.items s.revoked o l };

    fn apply(&mut self, alloc: Global, arrival: Arrival) -> Result<Outcome, StoreFault> {
        forget_before(arrival.bytes.as_slice(), &mut self.revoked);
        self.register.apply(alloc, arrival)
    }

    fn cas(&mut self, alloc: Global) -> Result<Vec<Ca>, StoreFault> {
        self.register.cas(alloc)
    }

    fn body(&mut self, alloc: Global, serial: u64) -> Result<Option<Text>, StoreFault> {
        self.register.body(alloc, serial)
    }

    fn certificate(&mut self, alloc: Global, serial: u64) -> Result<Option<Issued>, StoreFault> {
        self.register.certificate(alloc, serial)
    }

    fn revoked(&mut self, alloc: Global) -> Result<Revoked, StoreFault> {
        self.register.revoked(alloc)
    }

    fn departments(&mut self, alloc: Global) -> Result<Vec<Department>, StoreFault> {
        self.register.departments(alloc)
    }

    fn revocations(&mut self, alloc: Global) -> Result<Revocations, StoreFault> {
        self.register.revocations(alloc)
    }

    fn certificates(&mut self, alloc: Global, place: u64) -> Result<Vec<Certificate>, StoreFault> {
        self.register.certificates(alloc, place)
    }

    fn pending(&mut self, alloc: Global) -> Result<Vec<Pending>, StoreFault> {
        // A fault drops what was known.
        let known = replace(&mut self.known, Known::nothing(alloc));
        let kept = self.revoked.take();
        match asked(&mut self.register, alloc, known, kept) {
            Ok((known, revoked)) => {
                let rows = known.copied_rows(alloc);
                self.known = known;
                self.revoked = Some(revoked);
                Ok(rows?)
            }
            Err(fault) => Err(fault),
        }
    }

    ghost unasked = { λ s. R.unasked s.register };

    ghost through = { λ a b c. R.through a.register b.register c.register };

    ghost lawful = { λ s o l m. R.lawful s.register o l m.register_means };
}
