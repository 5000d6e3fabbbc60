//! Appending integers and strings to a vector.

ghost use Rattle.std.specs.Prelude.{◌≡◌, ◌+◌, ◌<◌, ◌≤◌, ◌^◌, ◌++◌, length, OnOk, OnErr, vec_len};
ghost use Rattle.std.specs.Vec.{vec_capacity};
ghost use Rattle.wire.specs.Texts.{u32_text, u64_text, string_text};

use byteorder::{BigEndian, ByteOrder};
use text::NoMemory;

/// Appends a `uint32` of RFC 4251, section 5: 4 bytes, the most significant first.
///
/// # Errors
///
/// `NoMemory`, if an allocation was refused, so never within the vector's capacity. The vector is unchanged.
pub fn put_u32(out: &mut Vec<u8>, n: u32) -> Result<(), NoMemory>
    ensures ok { OnOk result (out.new.items ≡ out.old.items ++ u32_text n) }
    ensures err { OnErr result (out.new.items ≡ out.old.items) }
    ensures full { OnErr result (vec_capacity out.old < vec_len out.old + 4) }
    ensures capacity { vec_capacity out.old ≤ vec_capacity out.new }
{
    let mut bytes = [0; 4];
    BigEndian::write_u32(&mut bytes, n);
    out.extend_from_slice(&bytes)?;
    Ok(())
}

/// Appends a `uint64` of RFC 4251, section 5: 8 bytes, the most significant first.
///
/// # Errors
///
/// `NoMemory`, if an allocation was refused, so never within the vector's capacity. The vector is unchanged.
pub fn put_u64(out: &mut Vec<u8>, n: u64) -> Result<(), NoMemory>
    ensures ok { OnOk result (out.new.items ≡ out.old.items ++ u64_text n) }
    ensures err { OnErr result (out.new.items ≡ out.old.items) }
    ensures full { OnErr result (vec_capacity out.old < vec_len out.old + 8) }
    ensures capacity { vec_capacity out.old ≤ vec_capacity out.new }
{
    let mut bytes = [0; 8];
    BigEndian::write_u64(&mut bytes, n);
    out.extend_from_slice(&bytes)?;
    Ok(())
}

/// Appends a `string` of RFC 4251, section 5: a `uint32` with the number of its bytes, and then its bytes, of which
/// there are at most 4294967295.
///
/// # Errors
///
/// `NoMemory`, if an allocation was refused, so never within the vector's capacity. The vector is unchanged.
pub fn put_string(out: &mut Vec<u8>, b: &[u8]) -> Result<(), NoMemory>
    requires { length b.now < 2 ^ 32 }
    ensures ok { OnOk result (out.new.items ≡ out.old.items ++ string_text b.now) }
    ensures err { OnErr result (out.new.items ≡ out.old.items) }
    ensures full { OnErr result (vec_capacity out.old < vec_len out.old + 4 + length b.now) }
    ensures capacity { vec_capacity out.old ≤ vec_capacity out.new }
{
    // Reserve room for both parts first, so that a refusal leaves the vector unchanged.
    let mut head = [0; 4];
    BigEndian::write_u32(&mut head, b.len() as u32);
    out.reserve(4 + b.len())?;
    out.extend_from_slice(&head)?;
    out.extend_from_slice(b)?;
    Ok(())
}
