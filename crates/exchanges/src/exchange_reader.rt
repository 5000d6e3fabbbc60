//! Exchange files.

ghost use Rattle.std.specs.Prelude.{
  ◌≡◌,
  ◌==◌,
  ◌+◌,
  ℕ,
  List,
  ◌++◌,
  [],
  ◌∷◌,
  position,
  take,
  option_map,
  option_copied,
  IfOk,
  IfErr,
  OnOk,
  MatchResult,
  codes,
};
ghost use Rattle.std.specs.Result.{result_ok};
ghost use Rattle.std.specs.Str.{bytes_eq};
ghost use Rattle.hex.specs.Hex.{decode_sized, encode_lower};
ghost use Rattle.web.specs.declared.exchange.Exchange.{Exchange};
ghost use Rattle.exchanges.specs.Reading.{rest_after, cut_of, exchange_at, recorded_exchange, nonce_of, number_up_to};
ghost use Rattle.exchanges.specs.Reading.{request_in};
ghost use Rattle.exchanges.specs.Exchanges.{AreExchanges, IsExchangesFault, TellsOf, exchanges_text};

use std::alloc::Global;
use text::{NoMemory, Text};
use values::read_decimal;
use web::Exchange;

/// The greatest number of records in a file.
pub const MAX_EXCHANGES: usize = 10000;

/// The greatest number of bytes in a record's request.
pub const MAX_REQUEST: usize = 65536;

/// The greatest number of bytes in a record's first line: a word, two numbers, a nonce, three spaces and a line feed.
pub const MAX_RECORD_LINE: usize = 101;

/// The greatest size of a file: 10000 records, each with the longest first line and the longest request.
pub const MAX_FILE: usize = MAX_EXCHANGES * (MAX_RECORD_LINE + MAX_REQUEST);

/// Why a file isn't an exchange file.
#[derive(Clone, Copy, Debug, PartialEq, Eq)]
pub enum ExchangesFault {
    /// This record, counted from 1, is the first that is truncated or malformed, or it is one too many.
    BadExchange(usize),
    /// An allocation failed.
    NoMemory,
}

impl From<NoMemory> for ExchangesFault {
    ghost use Rattle.std.specs.Prelude.{◌≡◌};
    ghost use Rattle.exchanges.specs.declared.exchange_reader.ExchangesFault.TheVariants.{NoMemory};

    ghost from_gives = { λ _ e. e ≡ NoMemory };

    fn from(_e: text::NoMemory) -> ExchangesFault {
        ExchangesFault::NoMemory
    }
}

// A record, and the bytes after it.
#[derive(Drop)]
struct Record<'a> {
    moment: u64,
    nonce: [u8; 32],
    request: &'a [u8],
    rest: &'a [u8],
}

fn first_place(text: &[u8], byte: u8) -> Option<usize>
    ensures { result ≡ position (λ b. b == byte) text.now }
{
    text.iter().position(|b| *b == byte)
}

// The bytes before the first occurrence of this byte, and the bytes after it.
fn cut_at(text: &[u8], byte: u8) -> Option<(&[u8], &[u8])>
    ensures { option_map (λ p. (p.0.now, p.1.now)) result ≡ cut_of byte text.now }
{
    let Some(place) = first_place(text, byte) else {
        return None;
    };
    Some((&text[..place], &text[place + 1..]))
}

// The number up to the first occurrence of this byte, and the bytes after it.
fn number_up_to(text: &[u8], byte: u8) -> Option<(u64, &[u8])>
    ensures { option_map (λ p. (p.0, p.1.now)) result ≡ number_up_to byte text.now }
{
    let Some((digits, rest)) = cut_at(text, byte) else {
        return None;
    };
    let Some(number) = read_decimal(digits) else {
        return None;
    };
    Some((number, rest))
}

// Whether the digits are the lower-case hexadecimal form of the nonce.
fn is_lower(nonce: &[u8; 32], digits: &[u8]) -> bool
    ensures { result ≡ bytes_eq (encode_lower nonce.now) digits.now }
{
    let mut lower = [0; 64];
    match hex::encode_to_slice(nonce, &mut lower) {
        Ok(()) => lower.as_slice() == digits,
        Err(_) => false,
    }
}

// The bytes that the digits encode, in either case.
fn decoded(digits: &[u8]) -> Option<[u8; 32]>
    ensures { result ≡ result_ok (decode_sized digits.now 32) }
{
    let mut nonce = [0; 32];
    match hex::decode_to_slice(digits, &mut nonce) {
        Ok(()) => Some(nonce),
        Err(_) => None,
    }
}

fn nonce_of(digits: &[u8]) -> Option<[u8; 32]>
    ensures { result ≡ nonce_of digits.now }
{
    let Some(nonce) = decoded(digits) else {
        return None;
    };
    if is_lower(&nonce, digits) {
        Some(nonce)
    } else {
        None
    }
}

// The first `size` bytes and the bytes after them, if there are that many and a request may have that many.
fn request_in(size: u64, text: &[u8]) -> Option<(&[u8], &[u8])>
    ensures { option_map (λ p. (p.0.now, p.1.now)) result ≡ request_in size text.now }
{
    let size = usize::try_from(size).ok()?;
    if MAX_REQUEST < size || text.len() < size {
        return None;
    }
    Some(text.split_at(size))
}

// The bytes after the word that begins a record.
fn after_word(text: &[u8]) -> Option<&[u8]>
    ensures { option_copied result ≡ rest_after (codes "exchange ") text.now }
{
    text.strip_prefix(b"exchange ".as_slice())
}

// The first record.
#[tactic(auto, unfolding(crate::specs::Reading::exchange_at))]
fn read_record(text: &[u8]) -> Option<Record<'_>>
    ensures { option_map (λ r. (recorded_exchange r, r.rest.now)) result ≡ exchange_at text.now }
{
    let Some(words) = after_word(text) else {
        return None;
    };
    let Some((moment, words)) = number_up_to(words, b' ') else {
        return None;
    };
    let Some((digits, words)) = cut_at(words, b' ') else {
        return None;
    };
    let Some(nonce) = nonce_of(digits) else {
        return None;
    };
    let Some((size, rest)) = number_up_to(words, b'\n') else {
        return None;
    };
    let Some((request, rest)) = request_in(size, rest) else {
        return None;
    };
    Some(Record {
        moment,
        nonce,
        request,
        rest,
    })
}

fn exchange_of(alloc: Global, found: &Record<'_>) -> Result<Exchange, NoMemory>
    ensures { IfOk result (λ e. e ≡ recorded_exchange found.now) }
{
    let nonce = found.nonce;
    Ok(Exchange {
        request: Text::from_slice(alloc, found.request)?,
        moment: found.moment,
        nonce,
    })
}

// Appends the exchange of a record.
fn push_record(
    exchanges: &mut Vec<Exchange>,
    alloc: Global,
    found: &Record<'_>,
) -> Result<(), NoMemory>
    ensures { OnOk result (exchanges.new.items ≡ exchanges.old.items ++ recorded_exchange found.now ∷ []) }
{
    exchanges.push(exchange_of(alloc, found)?)?;
    Ok(())
}

/// The exchanges of a file: a sequence of records up to its end, each a line `exchange MOMENT NONCE LENGTH` and then
/// LENGTH bytes of a request. MOMENT is 0 to 18446744073709551615 and LENGTH 0 to 65536, both in decimal without sign
/// or leading zeros; NONCE is 64 lower-case hexadecimal digits. A file has at most 10000 records, and may have none.
///
/// # Errors
///
/// `BadExchange(k)`: record k, counted from 1, is the first that is truncated or malformed, or it is record 10001.
pub fn read_exchanges(alloc: Global, file: &[u8]) -> Result<Vec<Exchange>, ExchangesFault>
    // The exchanges that were read are valid, and the file is their text.
    ensures found { IfOk result (λ es. AreExchanges es.items × (file.now ≡ exchanges_text es.items)) }

    // The text of valid exchanges is read back, unless an allocation fails.
    ensures only { (es : List Exchange) → AreExchanges es → file.now ≡ exchanges_text es
        → MatchResult result (λ v. v.items ≡ es) (λ e. e ≡ ExchangesFault.NoMemory) }

    // The reported record is the first bad one.
    ensures bad { IfErr result (λ e. IsExchangesFault file.now e) }
{
    let mut exchanges = Vec::new(alloc);
    let mut rest = file;
    while !rest.is_empty() {
        let number = exchanges.len() + 1;
        if MAX_EXCHANGES < number {
            return Err(ExchangesFault::BadExchange(number));
        }
        let Some(record) = read_record(rest) else {
            return Err(ExchangesFault::BadExchange(number));
        };
        push_record(&mut exchanges, alloc, &record)?;
        rest = record.rest;
    }
    Ok(exchanges)
}

/// A reader can use the first 656370001 bytes, one more than any exchange file has, in place of the file.
pub fn the_first_bytes_tell_of_a_file()
    ensures { (file : List ℕ) → TellsOf file (take (MAX_FILE + 1) file) }
{}
