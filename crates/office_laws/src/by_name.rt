//! Theorems about callers who are neither root nor listed among a department's administrators: what they get, and what
//! they revoke, is their own. They hold in every state, so at each step of every history.

ghost use Rattle.std.specs.Prelude.{◌≡◌, List, ℕ, None, Some, false, true};
ghost use Rattle.values.specs.Names.{department_of, name_of};
ghost use Rattle.message.specs.declared.department.Department.{Department};
ghost use Rattle.message.specs.declared.issue.Issue.{Issue};
ghost use Rattle.message.specs.declared.renewal.Renewal.{Renewal};
ghost use Rattle.message.specs.declared.serial_range.SerialRange.{SerialRange};
ghost use Rattle.message.specs.declared.kinds.Message.TheVariants as message;
ghost use Rattle.office.specs.declared.certificate.Certificate.{Certificate};
ghost use Rattle.office.specs.Permissions.{may_administer};
ghost use Rattle.office.specs.State.{State, certificate_of, department_named, department_of_serial};
ghost use Rattle.office.specs.Refusals.{first_holding, refusals};
ghost use Rattle.office_laws.specs.Own.{HasOwn, IsMeantBy};

/// If an issue or a renewal isn't refused, and its caller is neither root nor listed, the department means him by the
/// name in the key ID, and each principal is that name and the suffix of one of the department's rules.
pub fn who_asks_by_name_has_his_own()
    ensures issue { (s : State) (caller : List ℕ) (i : Issue) (d : Department) (moment : ℕ)
        → department_named s i.department ≡ Some d → may_administer s.opening caller (Some d) ≡ false
        → first_holding (refusals s caller (message.Issue i) moment) ≡ None
        → HasOwn d (name_of i.key_id) caller i.principals }
    ensures renewal { (s : State) (caller : List ℕ) (r : Renewal) (c : Certificate) (d : Department) (moment : ℕ)
        → certificate_of s r.serial ≡ Some c → department_of_serial s r.serial ≡ Some d
        → may_administer s.opening caller (Some d) ≡ false
        → first_holding (refusals s caller (message.Renew r) moment) ≡ None
        → HasOwn d (name_of c.fields.key_id) caller c.fields.principals }
{}

/// If the revocation of a serial isn't refused, and its caller is neither root nor listed, the department means him by
/// the name in the certificate's own key ID. Ranges are revoked by root alone, and key IDs by root and those listed.
pub fn who_revokes_by_name_revokes_his_own()
    ensures serial { (s : State) (caller : List ℕ) (serial : ℕ) (c : Certificate) (d : Department) (moment : ℕ)
        → certificate_of s serial ≡ Some c → department_of_serial s serial ≡ Some d
        → may_administer s.opening caller (Some d) ≡ false
        → first_holding (refusals s caller (message.RevokeSerial serial) moment) ≡ None
        → IsMeantBy d (name_of c.fields.key_id) caller }
    ensures range { (s : State) (caller : List ℕ) (r : SerialRange) (moment : ℕ)
        → first_holding (refusals s caller (message.RevokeRange r) moment) ≡ None → caller ≡ s.opening.root }
    ensures key_id { (s : State) (caller key_id : List ℕ) (moment : ℕ)
        → first_holding (refusals s caller (message.RevokeKeyId key_id) moment) ≡ None
        → may_administer s.opening caller (department_named s (department_of key_id)) ≡ true }
{}
