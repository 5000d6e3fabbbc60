//! The CA and the serials of a guard.

ghost use Rattle.std.specs.Prelude.{◌≡◌, IfSome, IsTrue};
ghost use Rattle.values.specs.Serials.{are_serials};
ghost use Rattle.guard.specs.Scopes.{made_scope};

use values::are_serials;

/// The CA and the serials that a guard answers for.
#[derive(Clone, Copy)]
pub struct Scope {
    /// The Ed25519 public key of the CA.
    pub ca: [u8; 32],
    /// The first serial that may be signed.
    pub first: u64,
    /// The last serial that may be signed.
    pub last: u64,
}

impl Scope {
    /// The scope with these values, or `None` unless 1 <= first <= last <= 9223372036854775806.
    pub fn new(ca: [u8; 32], first: u64, last: u64) -> Option<Scope>
        ensures made { result ≡ made_scope ca first last }
        ensures lawful { IfSome result (λ s. IsTrue (are_serials s.first s.last)) }
    {
        if !are_serials(first, last) {
            return None;
        }
        Some(Scope { ca, first, last })
    }
}
