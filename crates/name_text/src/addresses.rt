//! Socket addresses: the bytes of one that name the other end, and their text.
//!
//!     family       bytes                                      key                        text
//!     1, unix      family, a path and zeros after it          up to the path's end       unix:PATH
//!     1            family, a zero and an abstract name        all                        unix:@NAME
//!     2, internet  family, port, 4 of the host, more          the first 8                192.0.2.1:443
//!     10           family, port, 4 of the flow, 16 of the     the first 24, with zeros   [2001:0db8:..:0001]:443
//!                  host, more                                 for the flow
//!     others       family, more                               all                        family:HEX
//!
//! The family has its low byte first, the port its high byte. An address of family 2 or 10 with fewer bytes is kept
//! and shown as those of other families are. An address of family 1 that is all zeros is none: nothing was bound.
ghost use Rattle.std.specs.Prelude.{◌≡◌, ◌≤◌, length, drop, take, replicate, IfOk, string_bytes, ◌++◌};
ghost use Rattle.std.specs.List.{list_all, position_or_len, join_with_byte};
ghost use Rattle.name_text.specs.Addresses as addresses;
ghost use Rattle.name_text.specs.Addresses.{groups_of, is_zero, key_of, text_of};

use flow_base::{Bytes, NoMemory};
use memchr::memchr;
use std::alloc::{AllocError, Global};

// How an address is laid out.
#[derive(Clone, Copy)]
pub enum Family {
    Unix,
    Internet,
    Internet6,
    Other,
}

/// The bytes of an address that name the other end, or nothing if there is none.
pub fn address_key(alloc: Global, saddr: &[u8]) -> Result<Option<Bytes>, NoMemory>
    ensures { IfOk result (λ key. key ≡ key_of saddr.now) }
{
    let key = match family_in(saddr) {
        Family::Unix => return unix_key(alloc, saddr),
        Family::Internet if saddr.len() >= 8 => Bytes::from_slice(alloc, &saddr[..8])?,
        Family::Internet6 if saddr.len() >= 24 => internet6_key(alloc, saddr)?,
        _ => Bytes::from_slice(alloc, saddr)?,
    };
    Ok(Some(key))
}

// The family that the first two bytes name.
fn family_in(saddr: &[u8]) -> Family
    ensures { result ≡ addresses.family_in saddr.now }
{
    match saddr {
        [low, high, ..] => family_of(u16::from(*low) + 256 * u16::from(*high)),
        _ => Family::Other,
    }
}

fn family_of(number: u16) -> Family
    ensures { result ≡ addresses.family_of number }
{
    match number {
        1 => Family::Unix,
        2 => Family::Internet,
        10 => Family::Internet6,
        _ => Family::Other,
    }
}

// The key of an address of family 1.
fn unix_key(alloc: Global, saddr: &[u8]) -> Result<Option<Bytes>, NoMemory>
    requires { 2 ≤ length saddr.now }
    ensures { IfOk result (λ key. key ≡ addresses.unix_key saddr.now) }
{
    let name = &saddr[2..];
    if are_zeros(name) {
        return Ok(None);
    }
    if name.first() == Some(&0) {
        return Ok(Some(Bytes::from_slice(alloc, saddr)?));
    }
    let end = zero_at(name);
    Ok(Some(Bytes::from_slice(alloc, &saddr[..2 + end])?))
}

// Whether there is no byte but zeros.
fn are_zeros(name: &[u8]) -> bool
    ensures { result ≡ list_all is_zero name.now }
{
    name.iter().all(|byte| *byte == 0)
}

// The place of the first zero, or the length.
#[tactic(auto, using(crate::proofs::PlaceLemmas::found_at))]
fn zero_at(name: &[u8]) -> usize
    ensures place { result ≡ position_or_len is_zero name.now }
    ensures within { result ≤ length name.now }
{
    match memchr(0, name) {
        Some(place) => place,
        None => name.len(),
    }
}

// The key of an address of family 10, without the flow number, which names no end.
fn internet6_key(alloc: Global, saddr: &[u8]) -> Result<Bytes, NoMemory>
    requires { 24 ≤ length saddr.now }
    ensures { IfOk result (λ key. key
        ≡ take 4 saddr.now ++ (replicate 4 0 ++ take 16 (drop 8 saddr.now))) }
{
    let mut key = Bytes::from_slice(alloc, &saddr[..4])?;
    key.append(&[0; 4])?;
    key.append(&saddr[8..24])?;
    Ok(key)
}

/// The text of an address, which is given by its key.
pub fn address_text(alloc: Global, key: &[u8]) -> Result<Bytes, NoMemory>
    ensures { IfOk result (λ text. text ≡ text_of key.now) }
{
    let text = match family_in(key) {
        Family::Internet if key.len() == 8 => internet_text(alloc, key)?,
        Family::Internet6 if key.len() == 24 => internet6_text(alloc, key)?,
        Family::Unix => return unix_text(alloc, &key[2..]),
        _ => bytes_text(alloc, key)?,
    };
    Ok(Bytes::from_vec(text.into_bytes()))
}

// The port of an address of the internet.
fn port_of(key: &[u8]) -> u16
    requires { 4 ≤ length key.now }
    ensures { result ≡ addresses.port_of key.now }
{
    256 * u16::from(key[2]) + u16::from(key[3])
}

// Four decimal numbers, and the port.
fn internet_text(alloc: Global, key: &[u8]) -> Result<String, AllocError>
    requires { length key.now ≡ 8 }
    ensures { IfOk result (λ text. string_bytes text ≡ addresses.internet_text key.now) }
{
    let port = port_of(key);
    let (first, second, third, fourth) = (key[4], key[5], key[6], key[7]);
    format!(in alloc; "{first}.{second}.{third}.{fourth}:{port}")
}

// Eight groups of four hex digits, and the port.
fn internet6_text(alloc: Global, key: &[u8]) -> Result<String, AllocError>
    requires { length key.now ≡ 24 }
    ensures { IfOk result (λ text. string_bytes text ≡ addresses.internet6_text key.now) }
{
    let port = port_of(key);
    let groups = groups_text(alloc, &key[8..])?;
    format!(in alloc; "[{groups}]:{port}")
}

// The groups of an address with colons between them.
fn groups_text(alloc: Global, host: &[u8]) -> Result<String, AllocError>
    requires { length host.now ≡ 16 }
    ensures { IfOk result (λ text. string_bytes text ≡ join_with_byte 58 (groups_of host.now)) }
{
    let mut text = String::new(alloc);
    for group in 0..8 {
        if group > 0 {
            text.push(':')?;
        }
        let digits = hex::encode(alloc, &host[2 * group..2 * group + 2])?;
        text.push_str(&digits)?;
    }
    Ok(text)
}

// A path, or an abstract name with an `@` in place of its first byte.
fn unix_text(alloc: Global, name: &[u8]) -> Result<Bytes, NoMemory>
    ensures { IfOk result (λ text. text ≡ addresses.unix_text name.now) }
{
    let mut text = Bytes::from_slice(alloc, b"unix:")?;
    match name {
        [first, ..] if *first != 0 => text.append(name)?,
        [_, rest @ ..] => {
            text.append(b"@")?;
            text.append(rest)?;
        }
        [] => text.append(b"@")?,
    }
    Ok(text)
}

// All bytes in hex.
fn bytes_text(alloc: Global, key: &[u8]) -> Result<String, AllocError>
    ensures { IfOk result (λ text. string_bytes text ≡ addresses.bytes_text key.now) }
{
    let digits = hex::encode(alloc, key)?;
    format!(in alloc; "family:{digits}")
}
