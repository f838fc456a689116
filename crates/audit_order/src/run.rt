//! The top call: from a log and a sink to a status.
ghost use Rattle.std.specs.Prelude.{◌≡◌, ⊤, List, ℕ, Some, [], length, IfOk, OnOk, IfErr};
ghost use Rattle.outside.specs.Cause.{Rose};
ghost use Rattle.audit_order.specs.Halts.{HasCauses, GoesUp};
ghost use Rattle.audit_order.specs.Statuses.{StatusCause, AtDone};
ghost use Rattle.audit_order.specs.Reads.{Orders, Undoes};

use crate::bounds::Bounds;
use crate::counts::Counts;
use crate::halt::Halt;
use crate::log::{MOST, take_log, take_tail};
use crate::release::finish;
use crate::sorter::Sorter;
use crate::status::{Status, status_of};
use crate::switches::Switches;
use crate::undo::Undoer;
use audit_lex::LineCut;
use flow_base::NoMemory;
use outside::{Sink, Source};
use std::alloc::Global;

/// The most bytes of one read.
const PIECE: usize = 65_536;

// A buffer for the bytes of one read.
fn room_for_a_read(alloc: Global) -> Result<Vec<u8>, NoMemory>
    ensures { IfOk result (λ room. length room.items ≡ 65536) }
{
    Ok(vec![in alloc; 0; PIECE]?)
}

// Orders a log.
fn order<L: Source, O: Sink>(
    alloc: Global,
    bounds: Bounds,
    switches: Switches,
    log: &mut L,
    out: &mut O,
    counts: &mut Counts,
) -> Result<(), Halt>
    ensures ordered { (bytes : List ℕ) → L.left log.old ≡ Some bytes
        → OnOk result (Orders bounds switches bytes
        (O.written out.old) (O.written out.new) counts.new) }
    ensures whole { (bytes : List ℕ) → L.left log.old ≡ Some bytes
        → OnOk result (L.left log.new ≡ Some []) }
    ensures causes { IfErr result (HasCauses
        (Rose (L.faults log.old) (L.faults log.new) (L.spent log.new))
        (Rose (O.faults out.old) (O.faults out.new) (O.spent out.new))) }
{
    let mut piece = room_for_a_read(alloc)?;
    let mut cut = LineCut::new(alloc, MOST);
    let mut sorter = Sorter::new(alloc, bounds, switches)?;
    take_log(&mut cut, &mut sorter, log, out, piece.as_mut_slice())?;
    take_tail(&mut cut, &mut sorter, out)?;
    finish(&mut sorter, out)?;
    *counts = sorter.counts();
    Ok(())
}

/// Writes the lines of a log in the order of effects.
///
/// At `Done` what was written, with what was changed undone, is the lines of the log and the ends and peers that were added, in
/// some order: nothing is lost, doubled or made up. The times in it never fall, lines are rewritten exactly as the rules say
/// that the switches allow, and each peer was lacking by those rules. Raised times, rewritten lines, and added ends and peers
/// are counted.
pub fn order_run<L: Source, O: Sink>(
    alloc: Global,
    bounds: Bounds,
    switches: Switches,
    log: &mut L,
    out: &mut O,
    counts: &mut Counts,
) -> Status
    ensures ordered { (bytes : List ℕ) → L.left log.old ≡ Some bytes
        → AtDone result (Orders bounds switches bytes
        (O.written out.old) (O.written out.new) counts.new) }
    ensures whole { (bytes : List ℕ) → L.left log.old ≡ Some bytes
        → AtDone result (L.left log.new ≡ Some []) }
    ensures causes { StatusCause
        (Rose (L.faults log.old) (L.faults log.new) (L.spent log.new))
        (Rose (O.faults out.old) (O.faults out.new) (O.spent out.new)) result }
{
    status_of(order(alloc, bounds, switches, log, out, counts))
}

// Undoes the lines of a log.
fn undo<L: Source, O: Sink>(alloc: Global, log: &mut L, out: &mut O) -> Result<(), Halt>
    ensures undone { (bytes : List ℕ) → L.left log.old ≡ Some bytes
        → OnOk result (Undoes bytes (O.written out.old) (O.written out.new)) }
    ensures whole { (bytes : List ℕ) → L.left log.old ≡ Some bytes
        → OnOk result (L.left log.new ≡ Some []) }
    ensures causes { IfErr result (HasCauses
        (Rose (L.faults log.old) (L.faults log.new) (L.spent log.new))
        (Rose (O.faults out.old) (O.faults out.new) (O.spent out.new))) }
{
    let mut piece = room_for_a_read(alloc)?;
    let mut cut = LineCut::new(alloc, MOST);
    let mut undoer = Undoer::new(alloc);
    take_log(&mut cut, &mut undoer, log, out, piece.as_mut_slice())?;
    take_tail(&mut cut, &mut undoer, out)?;
    undoer.flush(out)
}

/// Writes the lines of an ordered log as they were before they were changed.
///
/// At `Done` what was written is the lines of the log, each without its last mark, in their order.
pub fn undo_run<L: Source, O: Sink>(alloc: Global, log: &mut L, out: &mut O) -> Status
    ensures undone { (bytes : List ℕ) → L.left log.old ≡ Some bytes
        → AtDone result (Undoes bytes (O.written out.old) (O.written out.new)) }
    ensures whole { (bytes : List ℕ) → L.left log.old ≡ Some bytes
        → AtDone result (L.left log.new ≡ Some []) }
    ensures causes { StatusCause
        (Rose (L.faults log.old) (L.faults log.new) (L.spent log.new))
        (Rose (O.faults out.old) (O.faults out.new) (O.spent out.new)) result }
{
    status_of(undo(alloc, log, out))
}
