//! The rows that a message concerns.

ghost use Rattle.std.specs.Prelude.{◌≡◌, ◌<◌, IfSome, IsTrue};
ghost use Rattle.std.specs.Option.{option_copied, option_and_then};
ghost use Rattle.message.specs.Values.{is_department, is_message};
ghost use Rattle.office.specs.Certificates.{IsCertificate};
ghost use Rattle.office.specs.Decided.{Agrees, SaysKeyIdRevoked, SaysRevoked, certificate_concerned};
ghost use Rattle.office.specs.Decided.{department_concerned};
ghost use Rattle.office.specs.Machine.{is_key_id_revoked};
ghost use Rattle.office.specs.Views.{IsView};
ghost use Rattle.memory_store.specs.Contents.{state_of};

use crate::departments::named;
use crate::store::PlainStore;
use message::{Department, Message};
use office::{Certificate, View, concerned, has_key_id};

impl PlainStore {
    /// The certificate that a message concerns.
    fn certificate_of(&self, message: &Message) -> Option<&Certificate>
        ensures is { option_copied result ≡ certificate_concerned (state_of self.now) message.now }
        ensures lawful { IfSome (option_copied result) IsCertificate }
    {
        // The proof gets the store's invariants only if one of its fields is read.
        let _ = &self.opening;
        match concerned(message).serial {
            Some(serial) => self.issued(serial),
            None => None,
        }
    }

    /// The department that a message concerns, if it concerns this certificate.
    fn department_of(
        &self,
        message: &Message,
        certificate: Option<&Certificate>,
    ) -> Option<&Department>
        requires { option_copied certificate ≡ certificate_concerned (state_of self.now) message.now }
        ensures is { option_copied result ≡ department_concerned (state_of self.now) message.now }
        ensures lawful { IfSome (option_copied result) (λ d. IsTrue (is_department d)) }
    {
        let departments = self.departments.as_slice();
        match (certificate, concerned(message).department) {
            (Some(certificate), _) => named(departments, certificate.department.as_slice()),
            (None, Some(name)) => named(departments, name),
            (None, None) => None,
        }
    }

    /// Whether the serials that a message concerns are revoked.
    fn is_revoked(&self, message: &Message) -> bool
        requires { IsTrue (is_message message.now) }
        ensures { SaysRevoked result (state_of self.now) message.now }
    {
        let concern = concerned(message);
        match (concern.serial, concern.range) {
            (Some(serial), _) => self.revoked.has_all(serial, serial),
            (None, Some(range)) => self.revoked.has_all(range.lo, range.hi),
            (None, None) => false,
        }
    }

    /// Whether the key ID that a message concerns is revoked, if it concerns this certificate.
    fn is_key_id_revoked(&self, message: &Message, certificate: Option<&Certificate>) -> bool
        requires { option_copied certificate ≡ certificate_concerned (state_of self.now) message.now }
        ensures { SaysKeyIdRevoked result (state_of self.now) message.now }
    {
        let key_ids = self.revoked_key_ids.as_slice();
        match (certificate, concerned(message).key_id) {
            (Some(certificate), _) => has_key_id(key_ids, certificate.fields.key_id.as_slice()),
            (None, Some(key_id)) => has_key_id(key_ids, key_id),
            (None, None) => false,
        }
    }

    /// The rows that a message concerns, as long as the version can grow.
    pub(crate) fn view(&self, message: &Message) -> View<'_>
        requires version { self.now.version < 9223372036854775807 }
        requires lawful { IsTrue (is_message message.now) }
        ensures agrees { Agrees result (state_of self.now) message.now }
        ensures lawful { IsView result }
    {
        let certificate = self.certificate_of(message);
        View {
            opening: &self.opening,
            next: self.opening.first + self.certificates.len() as u64,
            version: self.version,
            date: self.date,
            cas: self.cas.as_slice(),
            department: self.department_of(message, certificate),
            certificate,
            is_revoked: self.is_revoked(message),
            is_key_id_revoked: self.is_key_id_revoked(message, certificate),
            has_revoked_key_ids: !self.revoked_key_ids.is_empty(),
        }
    }
}
