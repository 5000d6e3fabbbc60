//! Networks, as in the source-address option.

ghost use Rattle.std.specs.Prelude.{◌≡◌, ◌==◌, length};
ghost use Rattle.std.specs.List.{list_all, list_any, slice_split};
ghost use Rattle.values.specs.Networks.{
  address_of,
  are_networks,
  block_at,
  first_bits,
  is_block,
  is_network,
  is_within,
  lie_in,
  lies_in,
};

use crate::decimal::read_decimal;
use crate::names::first_slash;
use std::net::Ipv4Addr;

/// The most networks in one option.
const MOST_NETWORKS: usize = 8;

fn address_of(text: &[u8]) -> Option<u32>
    ensures { result ≡ address_of text.now }
{
    match Ipv4Addr::parse_ascii(text) {
        Ok(address) => Some(address.to_bits()),
        Err(_) => None,
    }
}

fn is_block(address: Option<u32>, size: Option<u64>) -> bool
    ensures { result ≡ is_block address size }
{
    match (address, size) {
        (Some(address), Some(size)) => size <= 32
            && address as u64 % 2u64.pow(32 - size as u32) == 0,
        _ => false,
    }
}

/// Whether the text is an IPv4 network `a.b.c.d/n` (RFC 4632 section 3.1): each of a, b, c, d from 0 to 255 and n from
/// 0 to 32 in decimal without leading zeros, with the address's bits after the first n being zero.
pub fn is_network(text: &[u8]) -> bool
    ensures { result ≡ is_network text.now }
{
    match first_slash(text) {
        Some(slash) => is_block(address_of(&text[..slash]), read_decimal(&text[slash + 1..])),
        None => false,
    }
}

fn piece_count(text: &[u8]) -> usize
    ensures { result ≡ length (slice_split (λ b. b == 44) text.now) }
{
    text.split(|b| *b == b',').count()
}

fn all_networks(text: &[u8]) -> bool
    ensures { result ≡ list_all is_network (slice_split (λ b. b == 44) text.now) }
{
    text.split(|b| *b == b',').all(is_network)
}

/// Whether the text is 1 to 8 networks joined by commas.
pub fn are_networks(text: &[u8]) -> bool
    ensures { result ≡ are_networks text.now }
{
    piece_count(text) <= MOST_NETWORKS && all_networks(text)
}

/// The address and the size in a text.
fn block_at(text: &[u8]) -> Option<(u32, u64)>
    ensures { result ≡ block_at text.now }
{
    let slash = first_slash(text)?;
    let address = address_of(&text[..slash])?;
    let size = read_decimal(&text[slash + 1..])?;
    Some((address, size))
}

/// The address with its first `size` bits, and the others zero.
fn first_bits(address: u32, size: u64) -> u64
    ensures { result ≡ first_bits address size }
{
    let address = address as u64;
    if size <= 32 {
        address - address % 2u64.pow(32 - size as u32)
    } else {
        address
    }
}

fn is_within(inner: Option<(u32, u64)>, outer: Option<(u32, u64)>) -> bool
    ensures { result ≡ is_within inner outer }
{
    match (inner, outer) {
        (Some((inner, inner_size)), Some((outer, outer_size))) => {
            outer_size <= inner_size && first_bits(inner, outer_size) == outer as u64
        }
        _ => false,
    }
}

/// Whether the first network lies in the second.
fn lies_in(inner: &[u8], outer: &[u8]) -> bool
    ensures { result ≡ lies_in inner.now outer.now }
{
    is_within(block_at(inner), block_at(outer))
}

fn lies_in_one(inner: &[u8], outer: &[u8]) -> bool
    ensures { result ≡ list_any (lies_in inner.now) (slice_split (λ b. b == 44) outer.now) }
{
    outer
        .split(|b| *b == b',')
        .any(|network| lies_in(inner, network))
}

/// Whether each of the networks, joined by commas, lies in one of the others.
pub fn lie_in(inner: &[u8], outer: &[u8]) -> bool
    ensures { result ≡ lie_in inner.now outer.now }
{
    inner
        .split(|b| *b == b',')
        .all(|network| lies_in_one(network, outer))
}
