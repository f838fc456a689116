//! What a descriptor holds.
ghost use Rattle.std.specs.Prelude.{◌≡◌, IfOk};

use crate::call::SocketKind;
use flow_base::{Bytes, NoMemory};
use std::alloc::AllocError;

/// What a descriptor names.
#[derive(Drop)]
pub enum Thing {
    /// The directory of this path.
    Directory { path: Bytes },
    /// A socket of this kind that is bound to this place; to none that is known if all of its bytes are 0.
    Socket { place: Bytes, kind: SocketKind },
}

impl Thing {
    /// A second value.
    pub fn copy(&self) -> Result<Thing, NoMemory>
        ensures { IfOk result (λ made. made ≡ self.now) }
    {
        match self {
            Thing::Directory { path } => {
                let path = path.copy()?;
                Ok(Thing::Directory { path })
            }
            Thing::Socket { place, kind } => {
                let place = place.copy()?;
                Ok(Thing::Socket { place, kind: *kind })
            }
        }
    }
}

impl Clone for Thing {
    ghost is_clone = { λ thing made. made ≡ thing };

    fn clone(&self) -> Result<Thing, AllocError> {
        match self.copy() {
            Ok(made) => Ok(made),
            Err(_) => Err(AllocError),
        }
    }
}

/// What a descriptor holds, and whether an exec leaves it open.
#[derive(Drop)]
pub struct Held {
    pub thing: Thing,
    pub stays: bool,
}
