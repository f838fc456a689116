//! Why a row or a payload wasn't read.

ghost use Rattle.std.specs.Prelude.{◌≡◌};
ghost use Rattle.row_codec.specs.declared.fault.RowRead.TheVariants as faults;

use flow_base::NoMemory;

/// No prefix of the bytes spells what was to be read.
#[derive(Clone, Copy, Debug, PartialEq, Eq)]
pub struct NoSpelling;

/// Why a row or a payload wasn't read.
#[derive(Clone, Copy, Debug, PartialEq, Eq)]
pub enum RowRead {
    /// No prefix of the bytes spells one.
    Malformed,
    /// An allocation failed.
    NoMemory,
}

impl From<NoSpelling> for RowRead {
    ghost from_gives = { λ _ e. e ≡ faults.Malformed };

    fn from(_error: NoSpelling) -> RowRead {
        RowRead::Malformed
    }
}

impl From<NoMemory> for RowRead {
    ghost from_gives = { λ _ e. e ≡ faults.NoMemory };

    fn from(_error: NoMemory) -> RowRead {
        RowRead::NoMemory
    }
}
