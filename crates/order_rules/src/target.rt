//! What a connect goes to, and the names of connections.
ghost use Rattle.std.specs.Prelude.{◌≡◌, ◌++◌, codes, decimal, option_map, IfOk, string_bytes};
ghost use Rattle.order_rules.specs.Deeds as deeds;
ghost use Rattle.order_rules.specs.Known.{target_seen};

use audit_lex::EventKey;
use flow_base::{Bytes, NoMemory};
use std::alloc::{AllocError, Global};

/// A place, and the address that the name of a connection to it begins with.
#[derive(Drop)]
pub struct Target {
    pub place: Bytes,
    pub stem: Bytes,
}

/// What a connect to an address of family 1 goes to.
pub fn unix_target(key: Option<Bytes>) -> Result<Option<Target>, NoMemory>
    ensures { IfOk result (λ made. option_map target_seen made ≡ deeds.unix_target key) }
{
    match key {
        Some(place) => {
            let stem = place.copy()?;
            Ok(Some(Target { place, stem }))
        }
        None => Ok(None),
    }
}

/// The name of a connection: the address that it went to, and the time and the serial number of its connect.
pub fn name_of(alloc: Global, stem: &[u8], key: EventKey) -> Result<Bytes, NoMemory>
    ensures { IfOk result (λ made. made ≡ deeds.name_of stem.now key) }
{
    let mut made = Bytes::from_slice(alloc, stem)?;
    let mark = mark_of(alloc, key)?;
    made.append(mark.as_bytes())?;
    Ok(made)
}

// What a name has of its connect.
fn mark_of(alloc: Global, key: EventKey) -> Result<String, AllocError>
    ensures { IfOk result (λ text. string_bytes text
        ≡ codes "#" ++ (decimal key.ms ++ (codes ":" ++ decimal key.serial))) }
{
    let (ms, serial) = (key.ms, key.serial);
    format!(in alloc; "#{ms}:{serial}")
}
