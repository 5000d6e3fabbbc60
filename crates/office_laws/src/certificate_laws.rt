//! Theorems about certificates.

ghost use Rattle.std.specs.Prelude.{◌≡◌, ◌++◌, List, ℕ, Some};
ghost use Rattle.office.specs.declared.opening.Opening.{Opening};
ghost use Rattle.office.specs.declared.arrival.Arrival.{Arrival};
ghost use Rattle.office.specs.declared.certificate.Certificate.{Certificate};
ghost use Rattle.office.specs.Openings.{IsOpening};
ghost use Rattle.office.specs.State.{body_of, certificate_of};
ghost use Rattle.office.specs.History.{state};
ghost use Rattle.office_laws.specs.Signers.{signer_of};
ghost use Rattle.office_laws.specs.Bodies.{IsBodyFor};
ghost use Rattle.office_laws.specs.Counting.{CountsUp};

/// The reply to the kth message that makes a certificate has the serial `first + k - 1` and the digest of the kth body
/// (unsigned certificate): so no serial names two bodies.
pub fn serials_count_up()
    ensures { (o : Opening) (l : List Arrival) → CountsUp o l }
{}

/// An existing body stays the same in every continuation of the history.
pub fn a_body_stays()
    ensures { (o : Opening) (l later : List Arrival) (serial : ℕ) (body : List ℕ) →
        body_of (state o l) serial ≡ Some body → body_of (state o (l ++ later)) serial ≡ Some body }
{}

/// The body for a serial names it, and the CA with the greatest number that had been added when it was handed out.
pub fn a_body_names_its_signer()
    ensures { (o : Opening) (l : List Arrival) → IsOpening o → (serial : ℕ) (c : Certificate) →
        certificate_of (state o l) serial ≡ Some c → IsBodyFor serial (signer_of (state o l) serial) c }
{}
