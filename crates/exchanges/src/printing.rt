//! The output for exchanges.

ghost use Rattle.std.specs.Prelude.{◌≡◌, ◌<◌, ◌++◌, ◌∷◌, [], codes, decimal, is_ok};
ghost use Rattle.lines.specs.Writing.{Writes};
ghost use Rattle.exchanges.specs.Printing.{all_given_text, given_text, has_fault, is_fault};

use itoa::Buffer;
use web::Given;
use wire::{Failed, Sink, write_all};

/// Prints a piece of a text, whose other pieces are printed by further calls. It fails exactly if a call of the output
/// failed, which has then taken a beginning of the piece.
pub fn print_piece<W: Sink>(out: &mut W, piece: &[u8]) -> Result<(), Failed>
    requires { W.failed out.old < u64.MAX }
    ensures { Writes W.taken W.failed W.room out.old out.new (is_ok result) piece.now }
{
    write_all(out, piece)
}

/// Prints a number in decimal, as a piece.
pub fn print_number<W: Sink>(out: &mut W, number: u64) -> Result<(), Failed>
    requires { W.failed out.old < u64.MAX }
    ensures { Writes W.taken W.failed W.room out.old out.new (is_ok result) (decimal number) }
{
    let mut buffer = Buffer::new();
    print_piece(out, buffer.format(number).as_bytes())
}

// The line before a response of this length.
fn print_head<W: Sink>(out: &mut W, length: u64) -> Result<(), Failed>
    requires { W.failed out.old < u64.MAX }
    ensures { Writes W.taken W.failed W.room out.old out.new (is_ok result)
        (codes "answer " ++ (decimal length ++ 10 ∷ [])) }
{
    print_piece(out, b"answer ")?;
    print_number(out, length)?;
    print_piece(out, b"\n")
}

// A line `answer LENGTH` and the bytes of a response, or a line `fault`.
fn print_one<W: Sink>(out: &mut W, given: &Given) -> Result<(), Failed>
    requires { W.failed out.old < u64.MAX }
    ensures { Writes W.taken W.failed W.room out.old out.new (is_ok result) (given_text given.now) }
{
    match given {
        Given::Answer(response) => {
            let response = response.as_slice();
            print_head(out, response.len() as u64)?;
            print_piece(out, response)
        }
        Given::Fault => print_piece(out, b"fault\n"),
    }
}

/// Prints what the exchanges got, in order: a line `answer LENGTH` and the bytes of a response, or a line `fault`. It
/// fails exactly if a call of the output failed. The output has then taken a beginning of that.
pub fn print_given<W: Sink>(out: &mut W, given: &[Given]) -> Result<(), Failed>
    requires { W.failed out.old < u64.MAX }
    ensures { Writes W.taken W.failed W.room out.old out.new (is_ok result) (all_given_text given.now) }
{
    for one in given {
        print_one(out, one)?;
    }
    Ok(())
}

fn is_fault(given: &Given) -> bool
    ensures { result ≡ is_fault given.now }
{
    matches!(given, Given::Fault)
}

/// Whether any exchange got no response.
pub fn has_fault(given: &[Given]) -> bool
    ensures { result ≡ has_fault given.now }
{
    given.iter().any(is_fault)
}
