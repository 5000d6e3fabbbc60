//! The initial configuration of an office.

ghost use Rattle.std.specs.Prelude.{◌≡◌, IfOk, string_bytes};
ghost use Rattle.office.specs.Openings.{IsOpening, made_opening};

use text::Text;
use values::{are_serials, is_name};

/// The initial configuration of an office, which never changes.
#[derive(Drop)]
pub struct Opening {
    /// The Ed25519 public key of the first CA.
    pub ca: [u8; 32],
    /// The name of the caller who may do everything except deliver signatures (not Unix root).
    pub root: Text,
    /// The name of the caller who delivers signatures: the signing station.
    pub station: Text,
    /// The first serial, from 1 on.
    pub first: u64,
    /// The last serial, up to 9223372036854775806.
    pub last: u64,
}

/// Why an initial configuration is invalid, in the order in which the faults are checked.
#[derive(Clone, Copy, Debug, PartialEq, Eq)]
pub enum OpeningFault {
    /// The name of root or of the station isn't 1 to 32 bytes of `a-z 0-9 -`.
    BadName,
    /// Root and the station have the same name.
    SameName,
    /// The serials violate 1 <= first <= last <= 9223372036854775806.
    BadSerials,
}

impl Opening {
    /// An opening with these values, or the first fault in the order of `OpeningFault`. It allocates nothing, and on a
    /// fault the texts are dropped.
    pub fn new(
        ca: [u8; 32],
        root: String,
        station: String,
        first: u64,
        last: u64,
    ) -> Result<Opening, OpeningFault>
        ensures made { result ≡ made_opening ca (string_bytes root) (string_bytes station) first last }
        ensures lawful { IfOk result IsOpening }
    {
        let root = Text::from_vec(root.into_bytes());
        let station = Text::from_vec(station.into_bytes());
        if !is_name(root.as_slice()) || !is_name(station.as_slice()) {
            return Err(OpeningFault::BadName);
        }
        if root.is(station.as_slice()) {
            return Err(OpeningFault::SameName);
        }
        if !are_serials(first, last) {
            return Err(OpeningFault::BadSerials);
        }
        Ok(Opening {
            ca,
            root,
            station,
            first,
            last,
        })
    }
}
