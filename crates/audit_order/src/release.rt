//! Lines that are written because it is their turn.
ghost use Rattle.std.specs.Prelude.{◌≡◌, ◌+◌, ◌-◌, ◌<◌, ◌≤◌, ◌^◌, ◌∷◌, [], true, false, length, OnOk, IfErr};
ghost use Rattle.outside.specs.Cause.{Rose};
ghost use Rattle.audit_order.specs.Halts.{HasCauses, GoesUp};
ghost use Rattle.audit_order.specs.Turns.{Between, MayGo, IsAny, IsFree, IsOfBytes, StartsIf};
ghost use Rattle.audit_order.specs.Sorted.{Sorts, Goes, GoesIf, Finishes, HasRoom, state_of, any_is_past};

use crate::halt::Halt;
use crate::sorter::{Sorter, hold, is_over, is_ripe, read_line, write_end, write_least};
use crate::taker::Taker;
use crate::writer::CHUNK;
use flow_base::Bytes;
use order_queue::Noted;
use outside::Sink;

// Hands on what was written, if it is much.
fn flush_much<O: Sink>(sorter: &mut Sorter, sink: &mut O) -> Result<(), Halt>
    ensures goes { OnOk result (GoesIf IsAny
        (O.written sink.old) sorter.old (O.written sink.new) sorter.new) }
    ensures state { state_of sorter.new ≡ state_of sorter.old }
    ensures waits { sorter.new.queue ≡ sorter.old.queue }
    ensures bounds { sorter.new.bounds ≡ sorter.old.bounds }
    ensures causes { IfErr result (HasCauses ⊥
        (Rose (O.faults sink.old) (O.faults sink.new) (O.spent sink.new))) }
    ensures counts { GoesUp
        (O.faults sink.old) (O.faults sink.new) (O.spent sink.old) (O.spent sink.new) }
{
    if sorter.writer.pending() < CHUNK {
        return Ok(());
    }
    sorter.writer.flush(sink)
}

// Writes the line of the least place, and hands on what was written if it is much.
fn release_least<O: Sink>(sorter: &mut Sorter, sink: &mut O) -> Result<(), Halt>
    ensures goes { OnOk result (GoesIf (MayGo (state_of sorter.old))
        (O.written sink.old) sorter.old (O.written sink.new) sorter.new) }
    ensures fewer { OnOk result
        (length sorter.new.queue.waits ≡ length sorter.old.queue.waits - 1) }
    ensures bounds { sorter.new.bounds ≡ sorter.old.bounds }
    ensures causes { IfErr result (HasCauses ⊥
        (Rose (O.faults sink.old) (O.faults sink.new) (O.spent sink.new))) }
    ensures counts { GoesUp
        (O.faults sink.old) (O.faults sink.new) (O.spent sink.old) (O.spent sink.new) }
{
    write_least(sorter)?;
    flush_much(sorter, sink)
}

// Makes room for this many bytes: the least places are written first.
fn make_room<O: Sink>(sorter: &mut Sorter, sink: &mut O, more: u64) -> Result<(), Halt>
    ensures goes { OnOk result (GoesIf (IsOfBytes more)
        (O.written sink.old) sorter.old (O.written sink.new) sorter.new) }
    ensures room { OnOk result (sorter.new.queue.bytes ≤ sorter.old.bounds.memory) }
    ensures early { OnOk result (HasRoom sorter.old.bounds.memory more sorter.new.queue.waits) }
    ensures none { OnOk result (sorter.old.queue.waits ≡ [] → sorter.new.queue.waits ≡ []) }
    ensures fits { OnOk result (sorter.new.queue.bytes + more < 2 ^ 64) }
    ensures bounds { sorter.new.bounds ≡ sorter.old.bounds }
    ensures causes { IfErr result (HasCauses ⊥
        (Rose (O.faults sink.old) (O.faults sink.new) (O.spent sink.new))) }
    ensures counts { GoesUp
        (O.faults sink.old) (O.faults sink.new) (O.spent sink.old) (O.spent sink.new) }
{
    let memory = sorter.bounds.memory;
    while is_over(&sorter.queue, memory, more) {
        release_least(sorter, sink)?;
    }
    Ok(())
}

// Writes the lines whose places are past.
fn release_past<O: Sink>(sorter: &mut Sorter, sink: &mut O) -> Result<(), Halt>
    ensures goes { OnOk result
        (Goes Between (O.written sink.old) sorter.old (O.written sink.new) sorter.new) }
    ensures past { OnOk result
        (any_is_past sorter.old.bounds.window
        sorter.new.places.clock sorter.new.queue.waits ≡ false) }
    ensures bounds { sorter.new.bounds ≡ sorter.old.bounds }
    ensures causes { IfErr result (HasCauses ⊥
        (Rose (O.faults sink.old) (O.faults sink.new) (O.spent sink.new))) }
    ensures counts { GoesUp
        (O.faults sink.old) (O.faults sink.new) (O.spent sink.old) (O.spent sink.new) }
{
    let window = sorter.bounds.window;
    while is_ripe(sorter, window) {
        release_least(sorter, sink)?;
    }
    Ok(())
}

impl Taker for Sorter {
    ghost stands = { Sorts };

    // The line waits for its turn, and lines whose turn it is are written.
    fn take_line<O: Sink>(&mut self, sink: &mut O, line: Bytes) -> Result<(), Halt> {
        let read = read_line(&mut self.places, &mut self.kin, line.as_slice())?;
        release_before(self, sink, read.place.starts)?;
        make_room(self, sink, line.as_slice().len() as u64)?;
        let noted = Noted::new(line, read.marks, read.note);
        hold(self, read.place, noted)?;
        release_past(self, sink)
    }
}

// Writes all lines that wait.
fn release_all<O: Sink>(sorter: &mut Sorter, sink: &mut O) -> Result<(), Halt>
    ensures goes { OnOk result (GoesIf IsFree
        (O.written sink.old) sorter.old (O.written sink.new) sorter.new) }
    ensures none { OnOk result (sorter.new.queue.waits ≡ []) }
    ensures bounds { sorter.new.bounds ≡ sorter.old.bounds }
    ensures causes { IfErr result (HasCauses ⊥
        (Rose (O.faults sink.old) (O.faults sink.new) (O.spent sink.new))) }
    ensures counts { GoesUp
        (O.faults sink.old) (O.faults sink.new) (O.spent sink.old) (O.spent sink.new) }
{
    while !sorter.queue.is_empty() {
        release_least(sorter, sink)?;
    }
    Ok(())
}

// Writes all lines that wait, if a node was started: what comes then may have lesser times, and is to stand after them.
fn release_before<O: Sink>(sorter: &mut Sorter, sink: &mut O, starts: bool) -> Result<(), Halt>
    ensures goes { OnOk result (GoesIf (StartsIf starts)
        (O.written sink.old) sorter.old (O.written sink.new) sorter.new) }
    ensures none { OnOk result (starts ≡ true → sorter.new.queue.waits ≡ []) }
    ensures bounds { sorter.new.bounds ≡ sorter.old.bounds }
    ensures causes { IfErr result (HasCauses ⊥
        (Rose (O.faults sink.old) (O.faults sink.new) (O.spent sink.new))) }
    ensures counts { GoesUp
        (O.faults sink.old) (O.faults sink.new) (O.spent sink.old) (O.spent sink.new) }
{
    if starts {
        return release_all(sorter, sink);
    }
    Ok(())
}

/// Writes all that waits, at the end of the log.
pub fn finish<O: Sink>(sorter: &mut Sorter, sink: &mut O) -> Result<(), Halt>
    ensures goes { OnOk result
        (Finishes (O.written sink.old) sorter.old (O.written sink.new) sorter.new) }
    ensures none { OnOk result (sorter.new.queue.waits ≡ []) }
    ensures written { OnOk result (sorter.new.writer.pending ≡ []) }
    ensures bounds { sorter.new.bounds ≡ sorter.old.bounds }
    ensures causes { IfErr result (HasCauses ⊥
        (Rose (O.faults sink.old) (O.faults sink.new) (O.spent sink.new))) }
    ensures counts { GoesUp
        (O.faults sink.old) (O.faults sink.new) (O.spent sink.old) (O.spent sink.new) }
{
    release_all(sorter, sink)?;
    write_end(sorter)?;
    sorter.writer.flush(sink)
}
