//! Addresses, and the places that they name.
//!
//!     family  bytes
//!     1       family, a path or an abstract name
//!     2       family, port, 4 of the host, 8 zeros
//!     10      family, port, 4 of the flow, 16 of the host, 4 of the scope
//!
//! The family has its low byte first. A host of family 10 that maps one of family 2 is that one.
ghost use Rattle.std.specs.Prelude.{◌≡◌, ◌≤◌, ◌++◌, ◌∷◌, length, replicate, option_map, IfOk};
ghost use Rattle.order_rules.specs.Addresses as addresses;
ghost use Rattle.order_rules.specs.Addresses.{is_family, host_in, inet_key, address_of, place_of};

use flow_base::{Bytes, NoMemory};
use name_text::address_key;
use std::alloc::Global;

/// The host and the port of an address.
pub fn inet_of(bytes: &[u8]) -> Option<(&[u8], &[u8])>
    ensures { option_map (λ p. (p.0.now, p.1.now)) result ≡ addresses.inet_of bytes.now }
{
    if is_family(2, bytes) {
        return Some((&bytes[4..8], &bytes[2..4]));
    }
    if is_family(10, bytes) && bytes.len() >= 24 {
        return Some((host_in(&bytes[8..24]), &bytes[2..4]));
    }
    None
}

// Whether bytes are of this family, whose number is below 256.
fn is_family(family: u8, bytes: &[u8]) -> bool
    ensures { result ≡ is_family family bytes.now }
{
    bytes.len() >= 8 && bytes[0] == family && bytes[1] == 0
}

// A host of 16 bytes, or the 4 bytes that it maps.
fn host_in(host: &[u8]) -> &[u8]
    requires { length host.now ≡ 16 }
    ensures { result.now ≡ host_in host.now }
{
    if is_mapped(host) {
        return &host[12..];
    }
    host
}

// Whether a host of 16 bytes maps one of 4.
fn is_mapped(host: &[u8]) -> bool
    requires { length host.now ≡ 16 }
    ensures { result ≡ addresses.is_mapped host.now }
{
    is_any(&host[..10]) && host[10] == 0xff && host[11] == 0xff
}

/// Whether a host stands for each of this machine.
pub fn is_any(host: &[u8]) -> bool
    ensures { result ≡ addresses.is_any host.now }
{
    host.iter().all(|byte| *byte == 0)
}

/// Whether a host is of this machine by itself.
pub fn is_loopback(host: &[u8]) -> bool
    ensures { result ≡ addresses.is_loopback host.now }
{
    host.len() == 4 && host[0] == 127
        || host == [0, 0, 0, 0, 0, 0, 0, 0, 0, 0, 0, 0, 0, 0, 0, 1].as_slice()
}

/// Whether an address is of family 1.
pub fn is_unix(bytes: &[u8]) -> bool
    ensures { result ≡ addresses.is_unix bytes.now }
{
    bytes.len() >= 2 && bytes[0] == 1 && bytes[1] == 0
}

/// The place that an address names on this machine.
pub fn place_of(alloc: Global, bytes: &[u8]) -> Result<Option<Bytes>, NoMemory>
    ensures { IfOk result (λ place. place ≡ place_of bytes.now) }
{
    if is_unix(bytes) {
        return address_key(alloc, bytes);
    }
    match inet_of(bytes) {
        Some((_, port)) => {
            let place = Bytes::from_slice(alloc, port)?;
            Ok(Some(place))
        }
        None => Ok(None),
    }
}

/// What of an address of a host and a port names the other end.
pub fn inet_key(alloc: Global, host: &[u8], port: &[u8]) -> Result<Bytes, NoMemory>
    ensures { IfOk result (λ made. made ≡ inet_key host.now port.now) }
{
    if host.len() == 4 {
        return short_key(alloc, host, port);
    }
    long_key(alloc, host, port)
}

fn short_key(alloc: Global, host: &[u8], port: &[u8]) -> Result<Bytes, NoMemory>
    ensures { IfOk result (λ made. made ≡ 2 ∷ 0 ∷ (port.now ++ host.now)) }
{
    let mut made = Bytes::from_slice(alloc, &[2, 0])?;
    made.append(port)?;
    made.append(host)?;
    Ok(made)
}

fn long_key(alloc: Global, host: &[u8], port: &[u8]) -> Result<Bytes, NoMemory>
    ensures { IfOk result (λ made. made ≡ 10 ∷ 0 ∷ (port.now ++ (replicate 4 0 ++ host.now))) }
{
    let mut made = Bytes::from_slice(alloc, &[10, 0])?;
    made.append(port)?;
    made.append(&[0; 4])?;
    made.append(host)?;
    Ok(made)
}

/// The address of a host and a port, as the kernel writes it.
pub fn address_of(alloc: Global, host: &[u8], port: &[u8]) -> Result<Bytes, NoMemory>
    ensures { IfOk result (λ made. made ≡ address_of host.now port.now) }
{
    let mut made = inet_key(alloc, host, port)?;
    if host.len() == 4 {
        made.append(&[0; 8])?;
    } else {
        made.append(&[0; 4])?;
    }
    Ok(made)
}
