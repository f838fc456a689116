//! The dialogue, from the first question to the last.
//!
//! The questions are read in pieces, and each line of a piece is answered before the next read.
//! Their bytes are counted apart from those of the log, and at most as many are heard as the limit
//! on input says.
ghost use Rattle.std.specs.Prelude.{false, ◌≡◌, ◌⊎◌, ◌≤◌, ◌<◌, ◌+◌, ◌*◌, ◌-◌, ◌^◌, ℕ, List, length, Some, OnOk, IfOk, IfErr};
ghost use Rattle.flow_base.specs.declared.limits.Limits.{Limits};
ghost use Rattle.outside.specs.Cause.{Rose};
ghost use Rattle.audit_lex.specs.History.{History};
ghost use Rattle.dialogue.specs.Dialogue.{Moment, QuestionsStop, ReadsNoFurther, nothing_beyond, asks, lines_in};
ghost use Rattle.dialogue.specs.Saves.{CutShort, KeepsPace, Start, lack_of};
ghost use Rattle.dialogue.specs.Course.{At, kind_of, GoesUp, HasCauses, EndTalked, when_takes};
ghost use Rattle.dialogue.specs.Hearing.{Holds, Heard, HeardLast};
ghost use Rattle.dialogue.specs.Settles.{last_since, settles, settles_since};
ghost use Rattle.dialogue.specs.Listening.{turn_heeded, heeded, LeftAfter, IsProgress, AreFew, PassesRoom, ClosesWithin, KeepsWithin};

use crate::halt::{Halt, Heed, Turn};
use crate::hear::hear;
use crate::saving::Saves;
use crate::session::{Session, room_for_a_read};
use crate::turn::{question_in, take_turn};
use audit_lex::{LineCut, lines_stay};
use flow_base::{Full, Limit, Limits};
use outside::{Sink, Source};
use reach_rows::Reducer;

// Reads the questions once into the buffer, and answers what it can. `heard` bytes were read before:
// with these at most `limits.input` are heard.
fn listen<R: Reducer, K: Saves, L: Source, Q: Source, O: Sink>(
    session: &mut Session<R, K>,
    takes: bool,
    limits: &Limits,
    heard: u64,
    cut: &mut LineCut,
    buf: &mut [u8],
    log: &mut L,
    questions: &mut Q,
    out: &mut O,
) -> Result<Heed, Halt>
    requires lines { cut.old.lines ≤ heard }
    requires heard { heard ≤ limits.now.input }
    requires room { length buf.old ≡ 65536 }
    requires can { K.can session.old.engine.joined.keep }
    ensures can { OnOk result (K.can session.new.engine.joined.keep) }
    ensures heard { (start : Start K) (m : Moment) (h : History) (q : List ℕ)
        → At (kind_of R.mode takes (K.holds start limits.now)) limits.now session.old.engine (L.left log.old) m
        → Holds limits.now cut.old h
        → Q.left questions.old ≡ Some q
        → Heard (kind_of R.mode takes (K.holds start limits.now)) limits.now (PassesRoom limits.now (limits.now.input - heard) h q)
        cut.new
        session.new.engine (L.left log.new) (O.written out.old) (O.written out.new)
        (turn_heeded result) m h (heeded result q) }
    ensures closes { (start : Start K) (m : Moment) (h : History) (q : List ℕ)
        → At (kind_of R.mode takes (K.holds start limits.now)) limits.now session.old.engine (L.left log.old) m
        → Holds limits.now cut.old h
        → Q.left questions.old ≡ Some q
        → IfOk result (ClosesWithin limits.now (limits.now.input - heard) m h q) }
    ensures left { (q : List ℕ) → Q.left questions.old ≡ Some q
        → IfOk result (LeftAfter q (Q.left questions.new)) }
    ensures progress { IfOk result (IsProgress (limits.now.input - heard)) }
    ensures lines { IfOk result (AreFew cut.new.lines heard) }
    ensures ends { (start : Start K) (m : Moment) (h : History)
        → At (kind_of R.mode takes (K.holds start limits.now)) limits.now session.old.engine (L.left log.old) m
        → Holds limits.now cut.old h
        → IfErr result (CutShort (K.ends start limits.now) R.mode session.new.engine.joined.keep) }
    ensures lacks { (start : Start K) (m : Moment) (h : History)
        → At (kind_of R.mode takes (K.holds start limits.now)) limits.now session.old.engine
        (L.left log.old) m
        → Holds limits.now cut.old h
        → K.lacks start limits.now R.mode session.old.engine.joined.keep (L.left log.old)
        session.old.unsaved
        → K.lacks start limits.now R.mode session.new.engine.joined.keep (L.left log.new)
        (lack_of result session.new.unsaved session.old.batch) }
    ensures adds { (start : Start K) (m : Moment) (h : History) (q : List ℕ) (most : ℕ)
        → At (kind_of R.mode takes (K.holds start limits.now)) limits.now session.old.engine
        (L.left log.old) m
        → Holds limits.now cut.old h
        → Q.left questions.old ≡ Some q
        → KeepsPace (K.adds start limits.now) session.old.batch session.old.engine.joined.keep
        session.old.unsaved (L.left log.old) most
        → KeepsPace (K.adds start limits.now) session.old.batch session.new.engine.joined.keep
        (lack_of result session.new.unsaved 0) (L.left log.new)
        (most + settles_since limits.now h (heeded result q) * session.old.batch) }
    ensures batch { session.new.batch ≡ session.old.batch }
    ensures causes { IfErr result (HasCauses
        (Rose (L.faults log.old) (L.faults log.new) (L.spent log.new)
        ⊎ Rose (Q.faults questions.old) (Q.faults questions.new) (Q.spent questions.new))
        (Rose (O.faults out.old) (O.faults out.new) (O.spent out.new))
        (K.rose session.old.engine.joined.keep session.new.engine.joined.keep)
        (K.hidden session.old.engine.joined.keep) (when_takes takes K.limited)) }
    ensures log { GoesUp (L.faults log.old) (L.faults log.new) (L.spent log.old) (L.spent log.new) }
    ensures questions { GoesUp
        (Q.faults questions.old) (Q.faults questions.new)
        (Q.spent questions.old) (Q.spent questions.new) }
    ensures out { GoesUp (O.faults out.old) (O.faults out.new) (O.spent out.old) (O.spent out.new) }
    ensures uses { K.uses session.old.engine.joined.keep session.new.engine.joined.keep }
    ensures alike { takes ≡ false
        → K.alike session.old.engine.joined.keep session.new.engine.joined.keep }
{
    lines_stay();
    K::saves_lawfully();
    K::lacks_lawfully();
    let count = match questions.read(buf) {
        Ok(count) => count,
        Err(_) => return Err(Halt::ReadFault),
    };
    if count == 0 {
        return Ok(Heed::Silence);
    }
    let room = limits.input - heard;
    let allowed = (count as u64).min(room) as usize;
    match hear(session, takes, cut, log, out, &buf[..allowed])? {
        Turn::Ended => Ok(Heed::Ended),
        Turn::More => {
            if allowed < count {
                return Err(Halt::Full(Full {
                    limit: Limit::Input,
                    number: limits.input,
                }));
            }
            Ok(Heed::Piece(count))
        }
    }
}

// Answers a last question without a line feed.
fn finish<R: Reducer, K: Saves, L: Source, O: Sink>(
    session: &mut Session<R, K>,
    takes: bool,
    cut: &mut LineCut,
    log: &mut L,
    out: &mut O,
) -> Result<(), Halt>
    requires lines { cut.old.lines < 2 ^ 61 }
    requires can { K.can session.old.engine.joined.keep }
    ensures can { OnOk result (K.can session.new.engine.joined.keep) }
    ensures heard { (start : Start K) (limits : Limits) (m : Moment) (h : History)
        → At (kind_of R.mode takes (K.holds start limits)) limits session.old.engine (L.left log.old) m
        → Holds limits cut.old h
        → HeardLast (kind_of R.mode takes (K.holds start limits)) limits nothing_beyond session.new.engine (L.left log.new)
        (O.written out.old) (O.written out.new) result m h }
    ensures ends { (start : Start K) (limits : Limits) (m : Moment)
        → At (kind_of R.mode takes (K.holds start limits)) limits session.old.engine (L.left log.old) m
        → IfErr result (CutShort (K.ends start limits) R.mode session.new.engine.joined.keep) }
    ensures lacks { (start : Start K) (limits : Limits) (m : Moment)
        → At (kind_of R.mode takes (K.holds start limits)) limits session.old.engine
        (L.left log.old) m
        → K.lacks start limits R.mode session.old.engine.joined.keep (L.left log.old)
        session.old.unsaved
        → K.lacks start limits R.mode session.new.engine.joined.keep (L.left log.new)
        (lack_of result session.new.unsaved session.old.batch) }
    ensures adds { (start : Start K) (limits : Limits) (m : Moment) (h : History) (most : ℕ)
        → At (kind_of R.mode takes (K.holds start limits)) limits session.old.engine
        (L.left log.old) m
        → Holds limits cut.old h
        → KeepsPace (K.adds start limits) session.old.batch session.old.engine.joined.keep
        session.old.unsaved (L.left log.old) most
        → KeepsPace (K.adds start limits) session.old.batch session.new.engine.joined.keep
        (lack_of result session.new.unsaved 0) (L.left log.new)
        (most + settles (asks limits (last_since h)) * session.old.batch) }
    ensures batch { session.new.batch ≡ session.old.batch }
    ensures causes { IfErr result (HasCauses
        (Rose (L.faults log.old) (L.faults log.new) (L.spent log.new))
        (Rose (O.faults out.old) (O.faults out.new) (O.spent out.new))
        (K.rose session.old.engine.joined.keep session.new.engine.joined.keep)
        (K.hidden session.old.engine.joined.keep) (when_takes takes K.limited)) }
    ensures log { GoesUp (L.faults log.old) (L.faults log.new) (L.spent log.old) (L.spent log.new) }
    ensures out { GoesUp (O.faults out.old) (O.faults out.new) (O.spent out.old) (O.spent out.new) }
    ensures uses { K.uses session.old.engine.joined.keep session.new.engine.joined.keep }
    ensures alike { takes ≡ false
        → K.alike session.old.engine.joined.keep session.new.engine.joined.keep }
{
    K::saves_lawfully();
    K::lacks_lawfully();
    match cut.finish() {
        None => Ok(()),
        Some(line) => {
            let _turn = take_turn(session, takes, log, out, &question_in(&line))?;
            Ok(())
        }
    }
}

/// Answers the questions in order, up to `end` or to their end.
pub fn watch<R: Reducer, K: Saves, L: Source, Q: Source, O: Sink>(
    session: &mut Session<R, K>,
    takes: bool,
    limits: &Limits,
    log: &mut L,
    questions: &mut Q,
    out: &mut O,
) -> Result<(), Halt>
    requires can { K.can session.old.engine.joined.keep }
    ensures can { OnOk result (K.can session.new.engine.joined.keep) }
    ensures talked { (start : Start K) (m : Moment) (q : List ℕ)
        → At (kind_of R.mode takes (K.holds start limits.now)) limits.now session.old.engine (L.left log.old) m
        → Q.left questions.old ≡ Some q
        → EndTalked (kind_of R.mode takes (K.holds start limits.now)) limits.now (QuestionsStop limits.now q)
        session.new.engine
        (L.left log.new) (O.written out.old) (O.written out.new) result m
        (asks limits.now (lines_in q)) }
    ensures within { (start : Start K) (m : Moment) (q : List ℕ)
        → At (kind_of R.mode takes (K.holds start limits.now)) limits.now session.old.engine (L.left log.old) m
        → Q.left questions.old ≡ Some q
        → OnOk result (KeepsWithin limits.now m q) }
    ensures left { (start : Start K) (m : Moment) (q : List ℕ)
        → At (kind_of R.mode takes (K.holds start limits.now)) limits.now session.old.engine (L.left log.old) m
        → Q.left questions.old ≡ Some q
        → OnOk result (ReadsNoFurther limits.now m q (Q.left questions.new)) }
    ensures ends { (start : Start K) (m : Moment) (q : List ℕ)
        → At (kind_of R.mode takes (K.holds start limits.now)) limits.now session.old.engine (L.left log.old) m
        → Q.left questions.old ≡ Some q
        → IfErr result (CutShort (K.ends start limits.now) R.mode session.new.engine.joined.keep) }
    ensures lacks { (start : Start K) (m : Moment) (q : List ℕ)
        → At (kind_of R.mode takes (K.holds start limits.now)) limits.now session.old.engine
        (L.left log.old) m
        → Q.left questions.old ≡ Some q
        → K.lacks start limits.now R.mode session.old.engine.joined.keep (L.left log.old)
        session.old.unsaved
        → K.lacks start limits.now R.mode session.new.engine.joined.keep (L.left log.new)
        (lack_of result session.new.unsaved session.old.batch) }
    ensures adds { (start : Start K) (m : Moment) (q : List ℕ) (most : ℕ)
        → At (kind_of R.mode takes (K.holds start limits.now)) limits.now session.old.engine
        (L.left log.old) m
        → Q.left questions.old ≡ Some q
        → KeepsPace (K.adds start limits.now) session.old.batch session.old.engine.joined.keep
        session.old.unsaved (L.left log.old) most
        → KeepsPace (K.adds start limits.now) session.old.batch session.new.engine.joined.keep
        (lack_of result session.new.unsaved 0) (L.left log.new)
        (most + settles (asks limits.now (lines_in q)) * session.old.batch) }
    ensures batch { session.new.batch ≡ session.old.batch }
    ensures causes { IfErr result (HasCauses
        (Rose (L.faults log.old) (L.faults log.new) (L.spent log.new)
        ⊎ Rose (Q.faults questions.old) (Q.faults questions.new) (Q.spent questions.new))
        (Rose (O.faults out.old) (O.faults out.new) (O.spent out.new))
        (K.rose session.old.engine.joined.keep session.new.engine.joined.keep)
        (K.hidden session.old.engine.joined.keep) (when_takes takes K.limited)) }
    ensures uses { K.uses session.old.engine.joined.keep session.new.engine.joined.keep }
    ensures alike { takes ≡ false
        → K.alike session.old.engine.joined.keep session.new.engine.joined.keep }
{
    lines_stay();
    K::saves_lawfully();
    K::reads_lawfully();
    K::lacks_lawfully();
    let mut cut = LineCut::new(session.alloc, limits.question);
    let mut heard: u64 = 0;
    let mut buf = room_for_a_read(session.alloc)?;
    loop {
        match listen(
            session,
            takes,
            limits,
            heard,
            &mut cut,
            buf.as_mut_slice(),
            log,
            questions,
            out,
        )? {
            Heed::Piece(count) => heard += count as u64,
            Heed::Ended => return Ok(()),
            Heed::Silence => return finish(session, takes, &mut cut, log, out),
        }
    }
}
