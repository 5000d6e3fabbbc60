//! What the policy permits.

ghost use Rattle.std.specs.Prelude.{◌≡◌};
ghost use Rattle.guard.specs.Machine.{permits};

use crate::small_order::has_weak_key;
use cert::CertFields;
use message::{
    Department, are_listed, are_options_permitted, is_key_permitted, is_life_permitted, meet_rules,
};
use values::name_of;

/// Whether the department's profile permits the certificate, and its key isn't one for which everybody can sign.
pub(crate) fn permits(department: &Department, fields: &CertFields) -> bool
    ensures { result ≡ permits department.now fields.now }
{
    meet_rules(
        department,
        name_of(fields.key_id.as_slice()),
        fields.principals.as_slice(),
    ) && are_options_permitted(department, fields.options.pairs())
        && are_listed(&department.extensions, fields.extensions.pairs())
        && is_life_permitted(department, fields.after, fields.before)
        && is_key_permitted(department, fields.key_type)
        && !has_weak_key(fields.key_type, fields.key.as_slice())
}
