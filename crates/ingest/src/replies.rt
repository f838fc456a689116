//! Replies to what is asked.
ghost use Rattle.std.specs.Prelude.{◌≡◌, ◌<◌, ℕ, List, None, Option, Err, length, IfOk, IfErr};
ghost use Rattle.flow_base.specs.declared.types.Flow.{Flow};
ghost use Rattle.kept_flows.specs.Answering.{AlwaysTold, AreAnswers, NeverFail, ShowsFor};
ghost use Rattle.ingest.specs.Asking.{FaultsHaveCauses};
ghost use Rattle.ingest.specs.Replies.{AnswersFind, AnswersQuestion, AnswersShow};
ghost use Rattle.ingest.specs.Replies.{AnswersWhy, SaysAnswers, SaysCounts};
ghost use Rattle.ingest.specs.StandsFor.{WhereJoined, WhereRead};
ghost use Rattle.ingest.specs.Events.{flows_in, objects_in};
ghost use Rattle.reach_model.specs.declared.modes.Mode.{Mode};
ghost use Rattle.ingest.specs.declared.ask_fault.AskFault.TheVariants as fault;

use crate::ask_fault::{AskFault, fault_of};
use crate::event_flows::EventFlows;
use crate::line_reader::{LineReader, copy_bad};
use flow_base::{Bytes, EntityId, List, NoMemory};
use kept_flows::Way;
use name_text::key_text;
use reach_model::Mode;
use reach_rows::{Keep, Question, Reducer};
use report_json::{Counts, Reply};
use std::alloc::Global;

/// The reply to a question.
pub fn answer_question<R: Reducer, K: Keep>(
    joined: &mut EventFlows<R, K>,
    question: &Question,
) -> Result<Reply, AskFault>
    ensures reply { IfOk result (λ said. WhereJoined joined.old (λ limits events.
        AnswersQuestion R.mode (length (objects_in limits events)) (flows_in limits events)
        question.now said)) }
    ensures cause { FaultsHaveCauses K.faults K.spent joined.old joined.new result }
    ensures never { NeverFail K.faults K.spent → WhereJoined joined.old (λ limits events.
        IfErr result (λ why. why ≡ fault.NoMemory)) }
    ensures always { NeverFail K.faults K.spent → AlwaysTold K.rows
        → IfErr result (λ why. why ≡ fault.NoMemory) }
    ensures hidden { (place : ℕ) → result ≡ Err (fault.BadStore place)
        → K.rows joined.old.keep ≡ None }
    ensures same { joined.new ≡ record joined.old { keep = joined.new.keep } }
    ensures alike { K.alike joined.old.keep joined.new.keep }
{
    if question.subject().0 >= joined.known() {
        return Ok(Reply::Unknown);
    }
    match joined.ask(question) {
        Ok(None) => Ok(Reply::NotKept),
        Ok(Some(ids)) => Ok(say(joined.mode(), question, ids)),
        Err(fault) => Err(fault_of(fault)),
    }
}

/// The reply to the question how one object reached another.
pub fn answer_why<R: Reducer, K: Keep>(
    joined: &mut EventFlows<R, K>,
    from: EntityId,
    to: EntityId,
    until: Option<u64>,
) -> Result<Reply, AskFault>
    ensures reply { IfOk result (λ said. WhereJoined joined.old (λ limits events.
        AnswersWhy R.mode (length (objects_in limits events)) (flows_in limits events)
        from to until said)) }
    ensures cause { FaultsHaveCauses K.faults K.spent joined.old joined.new result }
    ensures never { NeverFail K.faults K.spent → WhereJoined joined.old (λ limits events.
        IfErr result (λ why. why ≡ fault.NoMemory)) }
    ensures always { NeverFail K.faults K.spent → AlwaysTold K.rows
        → IfErr result (λ why. why ≡ fault.NoMemory) }
    ensures hidden { (place : ℕ) → result ≡ Err (fault.BadStore place)
        → K.rows joined.old.keep ≡ None }
    ensures same { joined.new ≡ record joined.old { keep = joined.new.keep } }
    ensures alike { K.alike joined.old.keep joined.new.keep }
{
    let known = joined.known();
    if from.0 >= known || to.0 >= known {
        return Ok(Reply::Unknown);
    }
    match joined.path(from, to, until) {
        Ok(way) => Ok(say_way(from, to, way)),
        Err(fault) => Err(fault_of(fault)),
    }
}

// The reply that has this path.
fn say_way(from: EntityId, to: EntityId, way: Way) -> Reply
    ensures { (kind : Mode) (known : ℕ) (flows : List Flow) (until : Option ℕ) → from.0 < known
        → to.0 < known → ShowsFor kind flows from.0 to.0 until way
        → AnswersWhy kind known flows from to until result }
{
    match way {
        Way::NotKept => Reply::NotKept,
        Way::Nowhere => Reply::Why {
            from,
            to,
            path: None,
        },
        Way::Along(path) => Reply::Why {
            from,
            to,
            path: Some(path),
        },
    }
}

/// The reply that has the objects with exactly this name.
pub fn answer_find<R: Reducer, K: Keep>(
    alloc: Global,
    joined: &EventFlows<R, K>,
    text: &[u8],
) -> Result<Reply, NoMemory>
    ensures { IfOk result (λ said. WhereJoined joined.now (λ limits events.
        AnswersFind limits events text.now said)) }
{
    let ids = joined.find(text)?;
    let text = Bytes::from_slice(alloc, text)?;
    Ok(Reply::Find { text, ids })
}

/// The reply that says what an object is.
pub fn answer_show<R: Reducer, K: Keep>(
    alloc: Global,
    joined: &EventFlows<R, K>,
    id: EntityId,
) -> Result<Reply, NoMemory>
    ensures { IfOk result (λ said. WhereJoined joined.now (λ limits events.
        AnswersShow limits events id said)) }
{
    if id.0 >= joined.known() {
        return Ok(Reply::Unknown);
    }
    let own = joined.key(id);
    let key = key_text(alloc, own)?;
    let names = copy_names(alloc, joined.names(own))?;
    Ok(Reply::Show { id, key, names })
}

// A copy of these names.
fn copy_names(alloc: Global, names: &[Bytes]) -> Result<List<Bytes>, NoMemory>
    ensures { IfOk result (λ made. made ≡ names.now) }
{
    let mut made = List::new(alloc);
    for name in names {
        made.push(name.copy()?)?;
    }
    Ok(made)
}

// The reply that has these answers. Backward in source mode they are sources.
fn say(mode: Mode, question: &Question, ids: List<EntityId>) -> Reply
    ensures { (flows : List Flow) → AreAnswers mode flows question.now ids
        → SaysAnswers mode flows question.now result }
{
    match (*question, mode) {
        (Question::Back { of, until: _ }, Mode::Source) => Reply::Sources { of, ids },
        (Question::Back { of, until: _ }, _) => Reply::Back { of, ids },
        (Question::Fore { of, since: _ }, _) => Reply::Fore { of, ids },
    }
}

/// The counts.
pub fn answer_stat<R: Reducer, K: Keep>(
    alloc: Global,
    reader: &LineReader,
    joined: &EventFlows<R, K>,
) -> Result<Reply, NoMemory>
    ensures { IfOk result (λ said. WhereRead reader.now joined.now (λ limits h.
        SaysCounts R.mode limits h said)) }
{
    let tally = reader.tally();
    let counts = joined.counts();
    let malformed_lines = copy_bad(alloc, tally.bad.as_slice())?;
    Ok(Reply::Stat(Counts {
        blank: tally.blank,
        bytes: reader.bytes(),
        events: counts.events,
        excess: joined.excess(),
        flows: joined.flows(),
        kept: joined.kept(),
        known: u64::from(joined.known()),
        late: counts.late,
        lines: reader.lines(),
        malformed: tally.malformed,
        malformed_lines,
        other: tally.other,
        unmapped: counts.unmapped,
        used: tally.used,
        waiting: joined.waiting(),
    }))
}
