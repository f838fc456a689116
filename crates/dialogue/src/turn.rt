//! One question and its reply.
ghost use Rattle.std.specs.Prelude.{false, Bool, ◌+◌, ◌*◌, ◌≡◌, ◌∷◌, ◌++◌, [], ℕ, List, length, take, None, Some, Option, IfOk, IfErr, OnOk, OnErr};
ghost use Rattle.std.specs.Io.KnownBytes.{Appends};
ghost use Rattle.flow_base.specs.declared.limits.Limits.{Limits};
ghost use Rattle.outside.specs.Cause.{Rose};
ghost use Rattle.kept_flows.specs.Answering.{AlwaysTold, NeverFail};
ghost use Rattle.audit_lex.specs.History.{History, Settle};
ghost use Rattle.audit_lex.specs.LineCut.{line_of};
ghost use Rattle.report_json.specs.declared.reply.Reply.TheVariants as reply;
ghost use Rattle.report_json.specs.Replies.{text_of};
ghost use Rattle.ingest.specs.Asking.{SameButRows};
ghost use Rattle.ingest.specs.Events.{events_of};
ghost use Rattle.ingest.specs.Replies.{IsQuestion, IsReply};
ghost use Rattle.ingest.specs.StandsFor.{StandsFor};
ghost use Rattle.ingest.specs.Stops.{Stops};
ghost use Rattle.dialogue.specs.declared.halt.Halt.TheVariants as halt;
ghost use Rattle.dialogue.specs.Dialogue.{Moment, after, Answers, asked, turn_of, nothing_beyond};
ghost use Rattle.dialogue.specs.Settles.{settles_in_one};
ghost use Rattle.dialogue.specs.Saves.{CutShort, KeepsPace, Start, lack_of};
ghost use Rattle.dialogue.specs.Course.{At, kind_of, GoesUp, HasCauses, IsDue, Talked, never, when_takes};

use crate::halt::{Halt, Turn, halt_of, halt_of_ask};
use crate::saving::{Saves, settle_all, take};
use crate::session::Session;
use audit_lex::Line;
use ingest::Ingest;
use outside::{Sink, Source, put_all};
use reach_rows::{Keep, Reducer};
use report_json::{Ask, Reply, read_question, reply_text, what_is_found_is_asked};
use std::alloc::Global;

/// What a line asks. A line that is too long asks nothing.
pub fn question_in(line: &Line) -> Option<Ask<'_>>
    ensures { (most number : ℕ) (text : List ℕ) → line.now ≡ line_of most number text
        → result ≡ asked most text }
{
    what_is_found_is_asked();
    if line.long {
        return None;
    }
    match read_question(line.text.as_slice()) {
        Ok(ask) => Some(ask),
        Err(_) => None,
    }
}

/// Settles, and says how many events are released.
pub fn settle<R: Reducer, K: Keep>(engine: &mut Ingest<R, K>) -> Result<Reply, Halt>
    ensures stands { (limits : Limits) (h : History) → StandsFor limits engine.old h
        → OnOk result (StandsFor limits engine.new (h ++ Settle ∷ [])) }
    ensures reply { (limits : Limits) (h : History) → StandsFor limits engine.old h
        → IfOk result (λ r. r ≡ reply.Settle (length (events_of limits (h ++ Settle ∷ [])))) }
    ensures due { (limits : Limits) (h : History) → StandsFor limits engine.old h
        → IfErr result (IsDue (Stops limits (h ++ Settle ∷ []))) }
    ensures causes { IfErr result (HasCauses ⊥ ⊥ ⊥ ⊥ ⊥) }
    ensures part { engine.new.part ≡ engine.old.part }
    ensures alike { K.alike engine.old.joined.keep engine.new.joined.keep }
    ensures marked { engine.new.joined.tables.marked ≡ engine.old.joined.tables.marked }
{
    match engine.settle() {
        Ok(()) => Ok(Reply::Settle(engine.events())),
        Err(why) => Err(halt_of(why)),
    }
}

/// The engine's reply to what is asked about what was taken.
///
/// `StoreFault` means that a read of the rows failed during this call, or that the rows have stopped
/// counting failed reads. `BadRow` comes only from rows that aren't observable.
pub fn reply_of<R: Reducer, K: Keep>(
    engine: &mut Ingest<R, K>,
    ask: &Ask<'_>,
) -> Result<Reply, Halt>
    requires asks { IsQuestion ask.now }
    ensures reply { IfOk result (λ reply. (limits : Limits) (h : History)
        → StandsFor limits engine.old h → IsReply R.mode limits h ask.now reply) }
    ensures memory { NeverFail K.faults K.spent → AlwaysTold K.rows
        → IfErr result (λ why. why ≡ halt.NoMemory) }
    ensures due { (limits : Limits) (h : History) → StandsFor limits engine.old h
        → IfErr result (IsDue never) }
    ensures causes { IfErr result (HasCauses ⊥ ⊥
        (Rose (K.faults engine.old.joined.keep) (K.faults engine.new.joined.keep)
        (K.spent engine.new.joined.keep)) (K.rows engine.old.joined.keep ≡ None) ⊥) }
    ensures stands { (limits : Limits) (h : History)
        → StandsFor limits engine.old h → StandsFor limits engine.new h }
    ensures same { SameButRows engine.old engine.new }
    ensures alike { K.alike engine.old.joined.keep engine.new.joined.keep }
{
    match engine.ask(ask) {
        Ok(reply) => Ok(reply),
        Err(fault) => Err(halt_of_ask(fault)),
    }
}

/// The reply to a question. A run that takes no log has no answer to `take` and `settle`.
pub fn answer<R: Reducer, K: Saves, L: Source>(
    session: &mut Session<R, K>,
    takes: bool,
    log: &mut L,
    question: &Option<Ask<'_>>,
) -> Result<Reply, Halt>
    requires can { K.can session.old.engine.joined.keep }
    ensures can { OnOk result (K.can session.new.engine.joined.keep) }
    ensures moves { (start : Start K) (limits : Limits) (m : Moment)
        → At (kind_of R.mode takes (K.holds start limits)) limits session.old.engine (L.left log.old) m
        → OnOk result
        (At (kind_of R.mode takes (K.holds start limits)) limits
        session.new.engine (L.left log.new) (after question.now m)) }
    ensures answers { (start : Start K) (limits : Limits) (m : Moment)
        → At (kind_of R.mode takes (K.holds start limits)) limits session.old.engine (L.left log.old) m
        → IfOk result (Answers limits question.now m) }
    ensures due { (start : Start K) (limits : Limits) (m : Moment)
        → At (kind_of R.mode takes (K.holds start limits)) limits session.old.engine (L.left log.old) m
        → IfErr result (IsDue (Stops limits (after question.now m).history)) }
    ensures ends { (start : Start K) (limits : Limits) (m : Moment)
        → At (kind_of R.mode takes (K.holds start limits)) limits session.old.engine (L.left log.old) m
        → IfErr result (K.ends start limits session.new.engine.joined.keep (after question.now m)) }
    ensures lacks { (start : Start K) (limits : Limits) (m : Moment)
        → At (kind_of R.mode takes (K.holds start limits)) limits session.old.engine
        (L.left log.old) m
        → K.lacks start limits R.mode session.old.engine.joined.keep (L.left log.old)
        session.old.unsaved
        → K.lacks start limits R.mode session.new.engine.joined.keep (L.left log.new)
        (lack_of result session.new.unsaved session.old.batch) }
    ensures adds { (start : Start K) (limits : Limits) (m : Moment) (most : ℕ)
        → At (kind_of R.mode takes (K.holds start limits)) limits session.old.engine
        (L.left log.old) m
        → KeepsPace (K.adds start limits) session.old.batch session.old.engine.joined.keep
        session.old.unsaved (L.left log.old) most
        → KeepsPace (K.adds start limits) session.old.batch session.new.engine.joined.keep
        (lack_of result session.new.unsaved 0) (L.left log.new)
        (most + settles_in_one question.now * session.old.batch) }
    ensures batch { session.new.batch ≡ session.old.batch }
    ensures causes { IfErr result
        (HasCauses (Rose (L.faults log.old) (L.faults log.new) (L.spent log.new)) ⊥
        (K.rose session.old.engine.joined.keep session.new.engine.joined.keep)
        (K.hidden session.old.engine.joined.keep) (when_takes takes K.limited)) }
    ensures counts { GoesUp
        (L.faults log.old) (L.faults log.new) (L.spent log.old) (L.spent log.new) }
    ensures uses { K.uses session.old.engine.joined.keep session.new.engine.joined.keep }
    ensures alike { takes ≡ false
        → K.alike session.old.engine.joined.keep session.new.engine.joined.keep }
{
    K::saves_lawfully();
    K::reads_lawfully();
    K::lacks_lawfully();
    K::adds_lawfully();
    match question {
        None => Ok(Reply::BadQuestion),
        Some(Ask::Take(most)) if takes => {
            let count = take(session, log, *most)?;
            Ok(Reply::Take(count))
        }
        Some(Ask::Settle) if takes => settle_all(session),
        Some(Ask::Take(_)) => Ok(Reply::BadQuestion),
        Some(Ask::Settle) => Ok(Reply::BadQuestion),
        Some(Ask::End) => Ok(Reply::End),
        Some(ask) => reply_of(&mut session.engine, ask),
    }
}

/// Writes a reply.
pub fn say<O: Sink>(alloc: Global, out: &mut O, reply: &Reply) -> Result<(), Halt>
    ensures said { OnOk result
        (Appends (O.written out.old) (O.written out.new) (text_of reply.now)) }
    ensures cut { OnErr result ((done : ℕ)
        × Appends (O.written out.old) (O.written out.new) (take done (text_of reply.now))) }
    ensures causes { IfErr result
        (HasCauses ⊥ (Rose (O.faults out.old) (O.faults out.new) (O.spent out.new)) ⊥ ⊥ ⊥) }
    ensures due { IfErr result (IsDue never) }
    ensures counts { GoesUp
        (O.faults out.old) (O.faults out.new) (O.spent out.old) (O.spent out.new) }
{
    let text = reply_text(alloc, reply)?;
    match put_all(out, text.as_slice()) {
        Ok(()) => Ok(()),
        Err(_) => Err(Halt::WriteFault),
    }
}

// Whether the question ended the dialogue.
fn turn_after(question: &Option<Ask<'_>>) -> Turn
    ensures { result ≡ turn_of question.now }
{
    match question {
        Some(Ask::End) => Turn::Ended,
        _ => Turn::More,
    }
}

/// Answers a question.
pub fn take_turn<R: Reducer, K: Saves, L: Source, O: Sink>(
    session: &mut Session<R, K>,
    takes: bool,
    log: &mut L,
    out: &mut O,
    question: &Option<Ask<'_>>,
) -> Result<Turn, Halt>
    requires can { K.can session.old.engine.joined.keep }
    ensures can { OnOk result (K.can session.new.engine.joined.keep) }
    ensures talk { (start : Start K) (limits : Limits) (m : Moment)
        → At (kind_of R.mode takes (K.holds start limits)) limits session.old.engine (L.left log.old) m
        → Talked (kind_of R.mode takes (K.holds start limits)) limits nothing_beyond session.new.engine (L.left log.new)
        (O.written out.old) (O.written out.new) result m (question.now ∷ []) }
    ensures ends { (start : Start K) (limits : Limits) (m : Moment)
        → At (kind_of R.mode takes (K.holds start limits)) limits session.old.engine (L.left log.old) m
        → IfErr result (CutShort (K.ends start limits) R.mode session.new.engine.joined.keep) }
    ensures lacks { (start : Start K) (limits : Limits) (m : Moment)
        → At (kind_of R.mode takes (K.holds start limits)) limits session.old.engine
        (L.left log.old) m
        → K.lacks start limits R.mode session.old.engine.joined.keep (L.left log.old)
        session.old.unsaved
        → K.lacks start limits R.mode session.new.engine.joined.keep (L.left log.new)
        (lack_of result session.new.unsaved session.old.batch) }
    ensures adds { (start : Start K) (limits : Limits) (m : Moment) (most : ℕ)
        → At (kind_of R.mode takes (K.holds start limits)) limits session.old.engine
        (L.left log.old) m
        → KeepsPace (K.adds start limits) session.old.batch session.old.engine.joined.keep
        session.old.unsaved (L.left log.old) most
        → KeepsPace (K.adds start limits) session.old.batch session.new.engine.joined.keep
        (lack_of result session.new.unsaved 0) (L.left log.new)
        (most + settles_in_one question.now * session.old.batch) }
    ensures batch { session.new.batch ≡ session.old.batch }
    ensures causes { IfErr result (HasCauses
        (Rose (L.faults log.old) (L.faults log.new) (L.spent log.new))
        (Rose (O.faults out.old) (O.faults out.new) (O.spent out.new))
        (K.rose session.old.engine.joined.keep session.new.engine.joined.keep)
        (K.hidden session.old.engine.joined.keep) (when_takes takes K.limited)) }
    ensures log { GoesUp (L.faults log.old) (L.faults log.new) (L.spent log.old) (L.spent log.new) }
    ensures out { GoesUp (O.faults out.old) (O.faults out.new) (O.spent out.old) (O.spent out.new) }
    ensures uses { K.uses session.old.engine.joined.keep session.new.engine.joined.keep }
    ensures alike { takes ≡ false
        → K.alike session.old.engine.joined.keep session.new.engine.joined.keep }
{
    K::saves_lawfully();
    K::lacks_lawfully();
    let reply = answer(session, takes, log, question)?;
    say(session.alloc, out, &reply)?;
    Ok(turn_after(question))
}
