//! Who takes the lines of a log.
ghost use Rattle.std.specs.Prelude.{◌≡◌, ◌≤◌, ◌^◌, List, ℕ, Option, ◌∷◌, [], length, OnOk, IfErr};
ghost use Rattle.outside.specs.Cause.{Rose};
ghost use Rattle.audit_order.specs.Halts.{HasCauses, GoesUp};
ghost use Rattle.audit_order.specs.Start.{Start};
ghost use Rattle.audit_order.specs.Taken.{Takes};

use crate::halt::Halt;
use flow_base::Bytes;
use outside::Sink;

/// Takes the lines of a log one by one, and writes what it makes of them.
pub trait Taker {
    /// After these lines of a run that began so it stands so, with what was written up to a moment.
    ghost stands: { Start → Option (List ℕ) → Self → List (List ℕ) → Type 0 };

    /// Takes the next line of the log.
    fn take_line<O: Sink>(&mut self, sink: &mut O, line: Bytes) -> Result<(), Halt>
        requires short { length line ≤ 2 ^ 60 }
        ensures takes { OnOk result (Takes stands
            (O.written sink.old) self.old (O.written sink.new) self.new (line ∷ [])) }
        ensures causes { IfErr result (HasCauses ⊥
            (Rose (O.faults sink.old) (O.faults sink.new) (O.spent sink.new))) }
        ensures counts { GoesUp
            (O.faults sink.old) (O.faults sink.new) (O.spent sink.old) (O.spent sink.new) };
}
