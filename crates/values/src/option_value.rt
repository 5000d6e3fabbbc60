//! The values of options.

ghost use Rattle.std.specs.Prelude.{◌≡◌, ◌&&◌, nat_le};
ghost use Rattle.std.specs.List.{list_all};
ghost use Rattle.values.specs.Options.{is_command, is_option_value};

use crate::names::has_size;
use crate::network::are_networks;
use crate::option_field::is_flag;

/// The longest command, in bytes.
const LONGEST_COMMAND: usize = 200;

fn has_printable_bytes(text: &[u8]) -> bool
    ensures { result ≡ list_all (λ b. nat_le 32 b && nat_le b 126) text.now }
{
    text.iter().all(|b| matches!(*b, b' '..=b'~'))
}

fn is_command(text: &[u8]) -> bool
    ensures { result ≡ is_command text.now }
{
    has_size(text, 1, LONGEST_COMMAND) && has_printable_bytes(text)
}

/// Whether an option with this name may have this value: for force-command 1 to 200 bytes from 0x20 to 0x7e, for
/// source-address 1 to 8 networks joined by commas, for a flag nothing. For any other name, no value is valid.
pub fn is_option_value(name: &[u8], value: &[u8]) -> bool
    ensures { result ≡ is_option_value name.now value.now }
{
    if name == b"force-command".as_slice() {
        is_command(value)
    } else if name == b"source-address".as_slice() {
        are_networks(value)
    } else {
        is_flag(name) && value.is_empty()
    }
}
