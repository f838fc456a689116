//! Why a call is refused: for want of memory, which every call that takes memory can answer, or at a limit.
//!
//! Want of memory is never merged with another refusal.
ghost use Rattle.std.specs.Prelude.{◌≡◌};
ghost use Rattle.flow_base.specs.declared.faults.Refused.TheVariants as refused;

use crate::limits::Full;
use std::alloc::{AllocError, AllocFailed};

/// An allocation failed.
#[derive(Clone, Copy, Debug, PartialEq, Eq)]
pub struct NoMemory;

impl From<AllocError> for NoMemory {
    fn from(_error: AllocError) -> NoMemory {
        NoMemory
    }
}

impl<T: Drop> From<AllocFailed<T>> for NoMemory {
    fn from(_error: AllocFailed<T>) -> NoMemory {
        NoMemory
    }
}

/// Why something was refused. Nothing was changed then.
#[derive(Clone, Copy, Debug, PartialEq, Eq)]
pub enum Refused {
    NoMemory,
    /// It would pass this limit.
    Full(Full),
}

impl From<NoMemory> for Refused {
    ghost from_gives = { λ _ e. e ≡ refused.NoMemory };

    fn from(_fault: NoMemory) -> Refused {
        Refused::NoMemory
    }
}

impl From<AllocError> for Refused {
    ghost from_gives = { λ _ e. e ≡ refused.NoMemory };

    fn from(_error: AllocError) -> Refused {
        Refused::NoMemory
    }
}
