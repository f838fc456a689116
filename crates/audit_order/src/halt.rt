//! Why a run stops before its end.
ghost use Rattle.std.specs.Prelude.{◌≡◌};
ghost use Rattle.audit_order.specs.declared.halt.Halt.TheVariants as halt;

use flow_base::NoMemory;

/// Why a run stops before its end.
#[derive(Clone, Copy, Debug, PartialEq, Eq)]
pub enum Halt {
    NoMemory,
    ReadFault,
    WriteFault,
}

impl From<NoMemory> for Halt {
    ghost from_gives = { λ _ e. e ≡ halt.NoMemory };

    fn from(_fault: NoMemory) -> Halt {
        Halt::NoMemory
    }
}
