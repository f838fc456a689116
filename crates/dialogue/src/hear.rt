//! Questions in pieces of any size: each line is answered as soon as it has ended.
ghost use Rattle.std.specs.Prelude.{false, ◌≡◌, ◌≤◌, ◌<◌, ◌+◌, ◌*◌, ◌^◌, ℕ, length, OnOk, IfOk, IfErr};
ghost use Rattle.flow_base.specs.declared.limits.Limits.{Limits};
ghost use Rattle.outside.specs.Cause.{Rose};
ghost use Rattle.audit_lex.specs.History.{History};
ghost use Rattle.dialogue.specs.Dialogue.{Moment, nothing_beyond};
ghost use Rattle.dialogue.specs.Saves.{CutShort, KeepsPace, Start, lack_of};
ghost use Rattle.dialogue.specs.Course.{At, kind_of, GoesUp, HasCauses, when_takes};
ghost use Rattle.dialogue.specs.Hearing.{Holds, Heard, turn_in, taken_in};
ghost use Rattle.dialogue.specs.Settles.{settles_since};

use crate::halt::{Halt, Turn};
use crate::saving::Saves;
use crate::session::Session;
use crate::turn::{question_in, take_turn};
use audit_lex::{LineCut, lines_stay};
use outside::{Sink, Source};
use reach_rows::Reducer;

// Takes bytes of the piece up to and with a line feed, and answers the line that they end. It says
// how many bytes it took.
fn hear_line<R: Reducer, K: Saves, L: Source, O: Sink>(
    session: &mut Session<R, K>,
    takes: bool,
    cut: &mut LineCut,
    log: &mut L,
    out: &mut O,
    piece: &[u8],
) -> Result<(usize, Turn), Halt>
    requires lines { cut.old.lines < 2 ^ 61 }
    requires can { K.can session.old.engine.joined.keep }
    ensures can { OnOk result (K.can session.new.engine.joined.keep) }
    ensures taken { IfOk result (λ given. given.0 ≤ length piece.now) }
    ensures some { IfOk result (λ given. 0 < length piece.now → 0 < given.0) }
    ensures lines { IfOk result (λ given. cut.new.lines ≤ cut.old.lines + given.0) }
    ensures heard { (start : Start K) (limits : Limits) (m : Moment) (h : History)
        → At (kind_of R.mode takes (K.holds start limits)) limits session.old.engine (L.left log.old) m
        → Holds limits cut.old h
        → Heard (kind_of R.mode takes (K.holds start limits)) limits nothing_beyond cut.new
        session.new.engine (L.left log.new)
        (O.written out.old) (O.written out.new) (turn_in result) m h (taken_in result piece.now) }
    ensures ends { (start : Start K) (limits : Limits) (m : Moment)
        → At (kind_of R.mode takes (K.holds start limits)) limits session.old.engine (L.left log.old) m
        → IfErr result (CutShort (K.ends start limits) R.mode session.new.engine.joined.keep) }
    ensures lacks { (start : Start K) (limits : Limits) (m : Moment)
        → At (kind_of R.mode takes (K.holds start limits)) limits session.old.engine
        (L.left log.old) m
        → K.lacks start limits R.mode session.old.engine.joined.keep (L.left log.old)
        session.old.unsaved
        → K.lacks start limits R.mode session.new.engine.joined.keep (L.left log.new)
        (lack_of result session.new.unsaved session.old.batch) }
    ensures adds { (start : Start K) (limits : Limits) (m : Moment) (h : History) (most : ℕ)
        → At (kind_of R.mode takes (K.holds start limits)) limits session.old.engine
        (L.left log.old) m
        → Holds limits cut.old h
        → KeepsPace (K.adds start limits) session.old.batch session.old.engine.joined.keep
        session.old.unsaved (L.left log.old) most
        → KeepsPace (K.adds start limits) session.old.batch session.new.engine.joined.keep
        (lack_of result session.new.unsaved 0) (L.left log.new)
        (most + settles_since limits h (taken_in result piece.now) * session.old.batch) }
    ensures batch { session.new.batch ≡ session.old.batch }
    ensures causes { IfErr result (HasCauses
        (Rose (L.faults log.old) (L.faults log.new) (L.spent log.new))
        (Rose (O.faults out.old) (O.faults out.new) (O.spent out.new))
        (K.rose session.old.engine.joined.keep session.new.engine.joined.keep)
        (K.hidden session.old.engine.joined.keep) (when_takes takes K.limited)) }
    ensures log { GoesUp (L.faults log.old) (L.faults log.new) (L.spent log.old) (L.spent log.new) }
    ensures out { GoesUp (O.faults out.old) (O.faults out.new) (O.spent out.old) (O.spent out.new) }
    ensures uses { K.uses session.old.engine.joined.keep session.new.engine.joined.keep }
    ensures alike { takes ≡ false
        → K.alike session.old.engine.joined.keep session.new.engine.joined.keep }
{
    lines_stay();
    K::saves_lawfully();
    K::lacks_lawfully();
    let (count, line) = cut.next(piece)?;
    match line {
        None => Ok((count, Turn::More)),
        Some(line) => {
            let turn = take_turn(session, takes, log, out, &question_in(&line))?;
            Ok((count, turn))
        }
    }
}

/// Answers the lines that end in this piece, up to the end of the dialogue.
pub fn hear<R: Reducer, K: Saves, L: Source, O: Sink>(
    session: &mut Session<R, K>,
    takes: bool,
    cut: &mut LineCut,
    log: &mut L,
    out: &mut O,
    piece: &[u8],
) -> Result<Turn, Halt>
    requires lines { cut.old.lines + length piece.now < 2 ^ 61 }
    requires can { K.can session.old.engine.joined.keep }
    ensures can { OnOk result (K.can session.new.engine.joined.keep) }
    ensures lines { OnOk result (cut.new.lines ≤ cut.old.lines + length piece.now) }
    ensures heard { (start : Start K) (limits : Limits) (m : Moment) (h : History)
        → At (kind_of R.mode takes (K.holds start limits)) limits session.old.engine (L.left log.old) m
        → Holds limits cut.old h
        → Heard (kind_of R.mode takes (K.holds start limits)) limits nothing_beyond cut.new
        session.new.engine (L.left log.new)
        (O.written out.old) (O.written out.new) result m h piece.now }
    ensures ends { (start : Start K) (limits : Limits) (m : Moment) (h : History)
        → At (kind_of R.mode takes (K.holds start limits)) limits session.old.engine (L.left log.old) m
        → Holds limits cut.old h
        → IfErr result (CutShort (K.ends start limits) R.mode session.new.engine.joined.keep) }
    ensures lacks { (start : Start K) (limits : Limits) (m : Moment) (h : History)
        → At (kind_of R.mode takes (K.holds start limits)) limits session.old.engine
        (L.left log.old) m
        → Holds limits cut.old h
        → K.lacks start limits R.mode session.old.engine.joined.keep (L.left log.old)
        session.old.unsaved
        → K.lacks start limits R.mode session.new.engine.joined.keep (L.left log.new)
        (lack_of result session.new.unsaved session.old.batch) }
    ensures adds { (start : Start K) (limits : Limits) (m : Moment) (h : History) (most : ℕ)
        → At (kind_of R.mode takes (K.holds start limits)) limits session.old.engine
        (L.left log.old) m
        → Holds limits cut.old h
        → KeepsPace (K.adds start limits) session.old.batch session.old.engine.joined.keep
        session.old.unsaved (L.left log.old) most
        → KeepsPace (K.adds start limits) session.old.batch session.new.engine.joined.keep
        (lack_of result session.new.unsaved 0) (L.left log.new)
        (most + settles_since limits h piece.now * session.old.batch) }
    ensures batch { session.new.batch ≡ session.old.batch }
    ensures causes { IfErr result (HasCauses
        (Rose (L.faults log.old) (L.faults log.new) (L.spent log.new))
        (Rose (O.faults out.old) (O.faults out.new) (O.spent out.new))
        (K.rose session.old.engine.joined.keep session.new.engine.joined.keep)
        (K.hidden session.old.engine.joined.keep) (when_takes takes K.limited)) }
    ensures log { GoesUp (L.faults log.old) (L.faults log.new) (L.spent log.old) (L.spent log.new) }
    ensures out { GoesUp (O.faults out.old) (O.faults out.new) (O.spent out.old) (O.spent out.new) }
    ensures uses { K.uses session.old.engine.joined.keep session.new.engine.joined.keep }
    ensures alike { takes ≡ false
        → K.alike session.old.engine.joined.keep session.new.engine.joined.keep }
{
    lines_stay();
    K::saves_lawfully();
    K::reads_lawfully();
    K::lacks_lawfully();
    let mut at = 0;
    while at < piece.len() {
        let (count, turn) = hear_line(session, takes, cut, log, out, &piece[at..])?;
        match turn {
            Turn::Ended => return Ok(Turn::Ended),
            Turn::More => at += count,
        }
    }
    Ok(Turn::More)
}
