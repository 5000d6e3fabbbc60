//! A reading position in bytes.

ghost use Rattle.std.specs.Prelude.{◌≡◌, ◌<◌, ◌^◌, ◌++◌, ◌↔◌, [], ◌∷◌, List, ℕ, length, IsTrue, IsNone, IfSome, IfNone};
ghost use Rattle.std.specs.Option.{option_copied, option_map};
ghost use Rattle.wire.specs.Texts.{u32_text, u64_text, string_text};
ghost use Rattle.wire.specs.Reading.{u8_at, u32_at, u64_at, string_at, string_extent, Moves};

use byteorder::{BigEndian, ByteOrder};
use std::marker::Model;

fn split_u32(bytes: &[u8]) -> Option<(u32, &[u8])>
    ensures reads { option_map (λ x. (x.0, x.1.now)) result ≡ u32_at bytes.now }
    ensures found { IfSome result (λ x. bytes.now ≡ u32_text x.0 ++ x.1.now) }
{
    if bytes.len() < 4 {
        return None;
    }
    let (front, rest) = bytes.split_at(4);
    Some((BigEndian::read_u32(front), rest))
}

fn split_u64(bytes: &[u8]) -> Option<(u64, &[u8])>
    ensures reads { option_map (λ x. (x.0, x.1.now)) result ≡ u64_at bytes.now }
    ensures found { IfSome result (λ x. bytes.now ≡ u64_text x.0 ++ x.1.now) }
{
    if bytes.len() < 8 {
        return None;
    }
    let (front, rest) = bytes.split_at(8);
    Some((BigEndian::read_u64(front), rest))
}

fn split_string(bytes: &[u8]) -> Option<(&[u8], &[u8])>
    ensures reads { option_map (λ x. (x.0.now, x.1.now)) result ≡ string_at bytes.now }
    ensures found { IfSome result (λ x. bytes.now ≡ string_text x.0.now ++ x.1.now) }
{
    let (len, rest) = split_u32(bytes)?;
    let len = len as usize;
    if rest.len() < len {
        return None;
    }
    Some(rest.split_at(len))
}

/// A reading position in bytes, at the front of those that are left.
///
/// Contracts see a cursor as the bytes that are left. Each call that reads returns the value whose text is at their
/// front, and moves right past it. It returns `None` exactly when too few bytes are left, and then the cursor is
/// unchanged. Reading allocates nothing.
#[derive(Drop)]
pub struct Cursor<'a> {
    rest: &'a [u8],
}

impl<'a> Model for Cursor<'a> {
    ghost Value = { List ℕ };

    ghost view = { λ c. c.rest.now };
}

impl<'a> Cursor<'a> {
    /// A cursor at the front of the bytes.
    pub fn new(bytes: &'a [u8]) -> Cursor<'a>
        ensures { result ≡ bytes.now }
    {
        Cursor { rest: bytes }
    }

    /// Whether nothing is left.
    pub fn at_end(&self) -> bool
        ensures { IsTrue result ↔ (self.now ≡ []) }
    {
        self.rest.is_empty()
    }

    /// The next `byte` of RFC 4251, section 5.
    pub fn u8(&mut self) -> Option<u8>
        ensures moves { Moves (u8_at self.old) result self.old self.new }
        ensures found { IfSome result (λ b. self.old ≡ b ∷ self.new) }
        ensures only { (b : ℕ) (rest : List ℕ) → self.old ≡ b ∷ rest → (result ≡ Some b) × (self.new ≡ rest) }
        ensures short { IsNone result ↔ (self.old ≡ []) }
        ensures unchanged { IfNone result (self.new ≡ self.old) }
    {
        let (first, rest) = self.rest.split_first()?;
        self.rest = rest;
        Some(*first)
    }

    /// The next `uint32` of RFC 4251, section 5: 4 bytes, the most significant first.
    pub fn u32(&mut self) -> Option<u32>
        ensures moves { Moves (u32_at self.old) result self.old self.new }
        ensures found { IfSome result (λ n. self.old ≡ u32_text n ++ self.new) }
        ensures only { (n : ℕ) (rest : List ℕ) → n < 2 ^ 32 → self.old ≡ u32_text n ++ rest
            → (result ≡ Some n) × (self.new ≡ rest) }
        ensures short { IsNone result ↔ (length self.old < 4) }
        ensures unchanged { IfNone result (self.new ≡ self.old) }
    {
        let (value, rest) = split_u32(self.rest)?;
        self.rest = rest;
        Some(value)
    }

    /// The next `uint64` of RFC 4251, section 5: 8 bytes, the most significant first.
    pub fn u64(&mut self) -> Option<u64>
        ensures moves { Moves (u64_at self.old) result self.old self.new }
        ensures found { IfSome result (λ n. self.old ≡ u64_text n ++ self.new) }
        ensures only { (n : ℕ) (rest : List ℕ) → n < 2 ^ 64 → self.old ≡ u64_text n ++ rest
            → (result ≡ Some n) × (self.new ≡ rest) }
        ensures short { IsNone result ↔ (length self.old < 8) }
        ensures unchanged { IfNone result (self.new ≡ self.old) }
    {
        let (value, rest) = split_u64(self.rest)?;
        self.rest = rest;
        Some(value)
    }

    /// The next `string` of RFC 4251, section 5: a `uint32` with the number of bytes that follow, and these bytes.
    /// They are a slice of the input.
    pub fn string(&mut self) -> Option<&'a [u8]>
        ensures moves { Moves (string_at self.old) (option_copied result) self.old self.new }
        ensures found { IfSome result (λ b. self.old ≡ string_text b.now ++ self.new) }
        ensures only { (b rest : List ℕ) → length b < 2 ^ 32 → self.old ≡ string_text b ++ rest
            → (option_copied result ≡ Some b) × (self.new ≡ rest) }
        ensures short { IsNone result ↔ (length self.old < string_extent self.old) }
        ensures unchanged { IfNone result (self.new ≡ self.old) }
    {
        let (value, rest) = split_string(self.rest)?;
        self.rest = rest;
        Some(value)
    }
}
