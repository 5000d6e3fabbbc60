//! Appending pieces to a text.

ghost use Rattle.std.specs.Prelude.{◌≡◌, ◌++◌, length, drop, decimal, OnOk};
ghost use Rattle.std.specs.List.{flat_map};
ghost use Rattle.web.specs.Reports.{gap, right_in};

use itoa::Buffer;
use text::NoMemory;
use values::put_decimal;

/// Appends the pieces, one after another.
pub(crate) fn put_pieces(out: &mut Vec<u8>, pieces: &[&[u8]]) -> Result<(), NoMemory>
    ensures { OnOk result (out.new.items ≡ out.old.items ++ flat_map (λ p. p.now) pieces.now) }
{
    for piece in pieces {
        out.extend_from_slice(piece)?;
    }
    Ok(())
}

/// Appends a word and a number in decimal.
pub(crate) fn put_number(out: &mut Vec<u8>, word: &[u8], number: u64) -> Result<(), NoMemory>
    ensures { OnOk result (out.new.items ≡ out.old.items ++ (word.now ++ decimal number)) }
{
    out.extend_from_slice(word)?;
    put_decimal(out, number)
}

/// The places that are left before a right-aligned text.
fn places_before<'a>(places: &'a [u8], text: &[u8]) -> &'a [u8]
    ensures { result.now ≡ drop (length text.now) places.now }
{
    if places.len() < text.len() {
        return &[];
    }
    &places[text.len()..]
}

/// Appends a number in decimal, right-aligned in these places if it is shorter, and the gap before the next column.
pub(crate) fn put_column(out: &mut Vec<u8>, places: &[u8], number: u64) -> Result<(), NoMemory>
    ensures { OnOk result (out.new.items ≡ out.old.items ++ (right_in places.now (decimal number) ++ gap)) }
{
    let mut buffer = Buffer::new();
    let digits = buffer.format(number).as_bytes();
    put_pieces(out, &[places_before(places, digits), digits, b"  "])
}
