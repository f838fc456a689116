//! One question over the whole log.
ghost use Rattle.std.specs.Prelude.{true, ◌≡◌, ◌<◌, ◌-◌, ◌^◌, ℕ, List, [], Some, OnOk, IfErr};
ghost use Rattle.flow_base.specs.declared.limits.Limits.{Limits};
ghost use Rattle.outside.specs.Cause.{Rose};
ghost use Rattle.dialogue.specs.Dialogue.{begin};
ghost use Rattle.dialogue.specs.Course.{At, HasCauses, kind_of};
ghost use Rattle.dialogue.specs.Saves.{nothing_at};
ghost use Rattle.audit_cli.specs.Headline.{back_questions};
ghost use Rattle.audit_cli.specs.Jobs.{LastTalked};

use dialogue::{Halt, Session, answer, say};
use flow_base::EntityId;
use ingest::stops_stay;
use outside::{Sink, Source};
use reach_rows::{Question, Reducer, VecRows};
use report_json::Ask;

/// Takes the log to its end, settles, asks, and writes the last reply alone.
pub fn back<R: Reducer, L: Source, O: Sink>(
    session: &mut Session<R, VecRows>,
    log: &mut L,
    out: &mut O,
    of: EntityId,
) -> Result<(), Halt>
    ensures talked { (limits : Limits) (bytes : List ℕ) → limits.input < 2 ^ 64 - 1
        → At (kind_of R.mode true nothing_at) limits session.old.engine (L.left log.old) (begin R.mode bytes)
        → LastTalked (kind_of R.mode true nothing_at) limits session.new.engine (L.left log.new)
        (O.written out.old) (O.written out.new) result
        (begin R.mode bytes) (back_questions of.0 bytes) }
    ensures whole { (limits : Limits) (bytes : List ℕ) → limits.input < 2 ^ 64 - 1
        → At (kind_of R.mode true nothing_at) limits session.old.engine (L.left log.old) (begin R.mode bytes)
        → OnOk result (L.left log.new ≡ Some []) }
    ensures causes { IfErr result (HasCauses
        (Rose (L.faults log.old) (L.faults log.new) (L.spent log.new))
        (Rose (O.faults out.old) (O.faults out.new) (O.spent out.new)) ⊥ ⊥ ⊥) }
{
    stops_stay();
    let _taken = answer(session, true, log, &Some(Ask::Take(u64::MAX)))?;
    let _settled = answer(session, true, log, &Some(Ask::Settle))?;
    let reply = answer(
        session,
        true,
        log,
        &Some(Ask::Question(Question::Back { of, until: None })),
    )?;
    say(session.alloc, out, &reply)?;
    Ok(())
}
