//! The lines of an ordered log as they were before they were changed.
ghost use Rattle.std.specs.Prelude.{◌≡◌, [], ◌∷◌, ◌++◌, OnOk, IfErr};
ghost use Rattle.std.specs.Io.KnownBytes.{Appends};
ghost use Rattle.outside.specs.Cause.{Rose};
ghost use Rattle.audit_order.specs.Halts.{HasCauses, GoesUp};
ghost use Rattle.order_text.specs.Undo.{undone};
ghost use Rattle.audit_order.specs.Undone.{Undid};

use crate::halt::Halt;
use crate::taker::Taker;
use crate::writer::{CHUNK, hand_on};
use flow_base::{Bytes, NoMemory};
use order_text::write_undone;
use outside::Sink;
use std::alloc::Global;
use std::marker::Model;

/// The undone lines that wait to be handed on.
#[derive(Drop)]
pub struct Undoer {
    pending: Bytes,
}

impl Model for Undoer {
    ghost use Rattle.std.specs.Prelude.{List, ℕ};

    ghost Value = { List ℕ };

    ghost view = { λ a. a.pending };
}

impl Taker for Undoer {
    ghost stands = { Undid };

    fn take_line<O: Sink>(&mut self, sink: &mut O, line: Bytes) -> Result<(), Halt> {
        self.write(line.as_slice())?;
        if self.pending.as_slice().len() < CHUNK {
            return Ok(());
        }
        self.flush(sink)
    }
}

impl Undoer {
    /// Nothing waits.
    pub fn new(alloc: Global) -> Undoer
        ensures { result ≡ [] }
    {
        Undoer {
            pending: Bytes::new(alloc),
        }
    }

    // Writes a line as it was.
    fn write(&mut self, line: &[u8]) -> Result<(), NoMemory>
        ensures { OnOk result (self.new ≡ self.old ++ (undone line.now ++ 10 ∷ [])) }
    {
        write_undone(&mut self.pending, line)?;
        self.pending.append(b"\n")
    }

    /// Hands on what waits.
    pub fn flush<O: Sink>(&mut self, sink: &mut O) -> Result<(), Halt>
        ensures bytes { OnOk result
            (Appends (O.written sink.old) (O.written sink.new) self.old) }
        ensures left { self.new ≡ [] }
        ensures causes { IfErr result (HasCauses ⊥
            (Rose (O.faults sink.old) (O.faults sink.new) (O.spent sink.new))) }
        ensures counts { GoesUp
            (O.faults sink.old) (O.faults sink.new) (O.spent sink.old) (O.spent sink.new) }
    {
        hand_on(&mut self.pending, sink)
    }
}
