//! A log is read in pieces and cut into lines, which are taken one by one.
ghost use Rattle.std.specs.Prelude.{◌≡◌, ◌≤◌, ◌<◌, ◌^◌, List, ℕ, ◌∷◌, [], Some, map, length, take, IfOk, OnOk, IfErr};
ghost use Rattle.outside.specs.Cause.{Rose};
ghost use Rattle.audit_lex.specs.History.{Byte, Settle};
ghost use Rattle.audit_order.specs.Halts.{HasCauses, GoesUp};
ghost use Rattle.audit_order.specs.Reads.{TakesAlso, TakesNext};

use crate::halt::Halt;
use crate::taker::Taker;
use audit_lex::{Line, LineCut};
use outside::{Sink, Source};

/// The longest line: a longer one doesn't fit into memory. Nor do as many lines.
pub const MOST: usize = 1 << 60;

// Takes a line that was cut out of the log.
fn take_cut<T: Taker, O: Sink>(taker: &mut T, sink: &mut O, line: Line) -> Result<(), Halt>
    ensures takes { OnOk result (TakesNext T.stands
        (O.written sink.old) taker.old (O.written sink.new) taker.new (Some line)) }
    ensures causes { IfErr result (HasCauses ⊥
        (Rose (O.faults sink.old) (O.faults sink.new) (O.spent sink.new))) }
    ensures counts { GoesUp
        (O.faults sink.old) (O.faults sink.new) (O.spent sink.old) (O.spent sink.new) }
{
    if line.long {
        return Err(Halt::NoMemory);
    }
    if line.text.as_slice().len() > MOST {
        return Err(Halt::NoMemory);
    }
    taker.take_line(sink, line.text)
}

// Takes a line that was cut out of the log, if there is one.
fn take_next<T: Taker, O: Sink>(taker: &mut T, sink: &mut O, line: Option<Line>) -> Result<(), Halt>
    ensures takes { OnOk result (TakesNext T.stands
        (O.written sink.old) taker.old (O.written sink.new) taker.new line) }
    ensures causes { IfErr result (HasCauses ⊥
        (Rose (O.faults sink.old) (O.faults sink.new) (O.spent sink.new))) }
    ensures counts { GoesUp
        (O.faults sink.old) (O.faults sink.new) (O.spent sink.old) (O.spent sink.new) }
{
    match line {
        None => Ok(()),
        Some(line) => take_cut(taker, sink, line),
    }
}

// Takes bytes up to and with the next line feed, or all, and says how many they were.
fn take_part<T: Taker, O: Sink>(
    cut: &mut LineCut,
    taker: &mut T,
    sink: &mut O,
    piece: &[u8],
) -> Result<usize, Halt>
    requires limit { cut.old.limit ≡ 2 ^ 60 }
    requires some { 0 < length piece.now }
    ensures limit { cut.new.limit ≡ 2 ^ 60 }
    ensures takes { IfOk result (λ n. TakesAlso T.stands (O.written sink.old) cut.old taker.old
        (O.written sink.new) cut.new taker.new (map Byte (take n piece.now))) }
    ensures more { IfOk result (λ n. 0 < n) }
    ensures within { IfOk result (λ n. n ≤ length piece.now) }
    ensures causes { IfErr result (HasCauses ⊥
        (Rose (O.faults sink.old) (O.faults sink.new) (O.spent sink.new))) }
    ensures counts { GoesUp
        (O.faults sink.old) (O.faults sink.new) (O.spent sink.old) (O.spent sink.new) }
{
    if cut.lines() >= MOST as u64 {
        return Err(Halt::NoMemory);
    }
    let (count, line) = cut.next(piece)?;
    take_next(taker, sink, line)?;
    Ok(count)
}

// Takes a piece of the log.
fn take_piece<T: Taker, O: Sink>(
    cut: &mut LineCut,
    taker: &mut T,
    sink: &mut O,
    piece: &[u8],
) -> Result<(), Halt>
    requires limit { cut.old.limit ≡ 2 ^ 60 }
    ensures limit { cut.new.limit ≡ 2 ^ 60 }
    ensures takes { OnOk result (TakesAlso T.stands (O.written sink.old) cut.old taker.old
        (O.written sink.new) cut.new taker.new (map Byte piece.now)) }
    ensures causes { IfErr result (HasCauses ⊥
        (Rose (O.faults sink.old) (O.faults sink.new) (O.spent sink.new))) }
    ensures counts { GoesUp
        (O.faults sink.old) (O.faults sink.new) (O.spent sink.old) (O.spent sink.new) }
{
    let mut done = 0;
    while done < piece.len() {
        done += take_part(cut, taker, sink, &piece[done..])?;
    }
    Ok(())
}

/// Takes the log to its end. Each read takes at most as many bytes as the buffer holds.
pub fn take_log<T: Taker, L: Source, O: Sink>(
    cut: &mut LineCut,
    taker: &mut T,
    log: &mut L,
    sink: &mut O,
    buf: &mut [u8],
) -> Result<(), Halt>
    requires limit { cut.old.limit ≡ 2 ^ 60 }
    requires some { 0 < length buf.old }
    ensures limit { cut.new.limit ≡ 2 ^ 60 }
    ensures takes { (bytes : List ℕ) → L.left log.old ≡ Some bytes
        → OnOk result (TakesAlso T.stands (O.written sink.old) cut.old taker.old
        (O.written sink.new) cut.new taker.new (map Byte bytes)) }
    ensures whole { (bytes : List ℕ) → L.left log.old ≡ Some bytes
        → OnOk result (L.left log.new ≡ Some []) }
    ensures causes { IfErr result (HasCauses
        (Rose (L.faults log.old) (L.faults log.new) (L.spent log.new))
        (Rose (O.faults sink.old) (O.faults sink.new) (O.spent sink.new))) }
    ensures counts { GoesUp
        (O.faults sink.old) (O.faults sink.new) (O.spent sink.old) (O.spent sink.new) }
{
    for _ in 0..u64::MAX {
        let count = match log.read(buf) {
            Ok(count) => count,
            Err(_) => return Err(Halt::ReadFault),
        };
        if count == 0 {
            return Ok(());
        }
        take_piece(cut, taker, sink, &buf[..count])?;
    }
    Err(Halt::NoMemory)
}

/// Takes the bytes after the last line feed as a line, if there are any.
pub fn take_tail<T: Taker, O: Sink>(
    cut: &mut LineCut,
    taker: &mut T,
    sink: &mut O,
) -> Result<(), Halt>
    requires limit { cut.old.limit ≡ 2 ^ 60 }
    ensures takes { OnOk result (TakesAlso T.stands (O.written sink.old) cut.old taker.old
        (O.written sink.new) cut.new taker.new (Settle ∷ [])) }
    ensures causes { IfErr result (HasCauses ⊥
        (Rose (O.faults sink.old) (O.faults sink.new) (O.spent sink.new))) }
    ensures counts { GoesUp
        (O.faults sink.old) (O.faults sink.new) (O.spent sink.old) (O.spent sink.new) }
{
    if cut.lines() >= MOST as u64 {
        return Err(Halt::NoMemory);
    }
    let line = cut.finish();
    take_next(taker, sink, line)
}
