//! One question, from the mode's leave to the ids.
ghost use Rattle.std.specs.Prelude.{◌≡◌, ◌↔◌, ◌<◌, IfOk, IfSome, IsTrue, OnOk};
ghost use Rattle.reach_model.specs.Ids.{IsAscending, numbers};
ghost use Rattle.reach_model.specs.Rows.{firsts};
ghost use Rattle.reach_model.specs.Sources.{IsSource};
ghost use Rattle.reach_rows.specs.Asked.{IsAnsweredFor, subject};
ghost use Rattle.query_walk.specs.Fault.{IsWalkOver};
ghost use Rattle.query_walk.specs.Walks.{SameRows};
ghost use Rattle.kept_flows.specs.Answering.{
  AnswersOver,
  AreAllFound,
  AreFound,
  AreThose,
  ChoosesNext,
  is_for_sources,
};

use flow_base::{EntityId, List, NoMemory};
use query_walk::{WalkFault, backward, forward};
use reach_model::{Mode, first_flows_are_kept};
use reach_rows::{
    Question, Reducer, Rows, Steps, first_flows_are_told, what_is_allowed_is_answerable,
    what_is_allowed_is_answered,
};
use std::alloc::Global;
use std::sync::ledger::{Blank, Ledger};

/// The answer to a question, if the mode that kept the rows allows it. The rows that are read are counted from nothing.
pub fn answer<M: Reducer, W: Rows, L: Ledger>(
    alloc: Global,
    reducer: &M,
    rows: &mut W,
    question: &Question,
    blank: Blank,
) -> Result<Option<List<EntityId>>, WalkFault>
    requires known { subject question.now < W.known rows.old }
    requires name { blank.name ≡ L.name }
    requires parts { blank.parts ≡ L.parts }
    requires one { blank.parts ≡ 1 }
    ensures exact { IfOk result (λ found. AnswersOver M.mode (W.rows rows.old) question.now found) }
    ensures cause { IsWalkOver W.rows W.faults W.spent rows.old rows.new result }
    ensures same { SameRows W.rows W.count W.known rows.old rows.new }
    ensures alike { W.alike rows.old rows.new }
{
    first_flows_are_kept();
    first_flows_are_told();
    what_is_allowed_is_answerable();
    what_is_allowed_is_answered();
    let first = rows.first(question.subject());
    let allowed = reducer.allowed(question, first);
    if !allowed {
        return Ok(None);
    }
    let mut steps = Steps::<L>::new(blank);
    let ids = found(alloc, reducer.mode(), rows, question, &mut steps)?;
    Ok(Some(ids))
}

/// What is found over the rows, among the objects for which the mode answers.
fn found<W: Rows, L: Ledger>(
    alloc: Global,
    mode: Mode,
    rows: &mut W,
    question: &Question,
    steps: &mut Steps<L>,
) -> Result<List<EntityId>, WalkFault>
    requires known { subject question.now < W.known rows.old }
    ensures exact { IfOk result (λ ids. IfSome (W.rows rows.old) (λ R.
        AreFound mode R question.now ids)) }
    ensures cause { IsWalkOver W.rows W.faults W.spent rows.old rows.new result }
    ensures same { SameRows W.rows W.count W.known rows.old rows.new }
    ensures alike { W.alike rows.old rows.new }
{
    let ids = walk(alloc, rows, question, steps)?;
    let those = chosen(alloc, mode, rows, question, ids)?;
    Ok(those)
}

/// The walk that a question asks for.
fn walk<W: Rows, L: Ledger>(
    alloc: Global,
    rows: &mut W,
    question: &Question,
    steps: &mut Steps<L>,
) -> Result<List<EntityId>, WalkFault>
    requires known { subject question.now < W.known rows.old }
    ensures ascending { IfOk result (λ ids. IsAscending (numbers ids)) }
    ensures exact { IfOk result (λ ids. IfSome (W.rows rows.old) (λ R.
        AreAllFound R question.now ids)) }
    ensures cause { IsWalkOver W.rows W.faults W.spent rows.old rows.new result }
    ensures same { SameRows W.rows W.count W.known rows.old rows.new }
    ensures alike { W.alike rows.old rows.new }
{
    match *question {
        Question::Back { of, until } => backward(alloc, rows, of, until, steps),
        Question::Fore { of, since } => forward(alloc, rows, of, since, steps),
    }
}

/// Those of the ids for which the mode answers.
fn chosen<W: Rows>(
    alloc: Global,
    mode: Mode,
    rows: &W,
    question: &Question,
    ids: List<EntityId>,
) -> Result<List<EntityId>, NoMemory>
    ensures { IfOk result (λ those. IfSome (W.rows rows.now) (λ R.
        AreThose (IsAnsweredFor mode (firsts R) question.now) (numbers ids) (numbers those))) }
{
    if asks_for_sources(mode, question) {
        sources(alloc, rows, &ids)
    } else {
        Ok(ids)
    }
}

/// Whether the mode answers a question for sources alone.
fn asks_for_sources(mode: Mode, question: &Question) -> bool
    ensures { result ≡ is_for_sources mode question.now }
{
    match (mode, *question) {
        (Mode::Plain, _) => false,
        (Mode::Continuous, _) => false,
        (Mode::Full, _) => false,
        (Mode::Source, Question::Back { of: _, until: _ }) => true,
        (Mode::Source, Question::Fore { of: _, since: _ }) => false,
    }
}

/// The sources among the ids.
fn sources<W: Rows>(
    alloc: Global,
    rows: &W,
    ids: &List<EntityId>,
) -> Result<List<EntityId>, NoMemory>
    ensures { IfOk result (λ those. IfSome (W.rows rows.now) (λ R.
        AreThose (IsSource (firsts R)) (numbers ids.now) (numbers those))) }
{
    let mut those = List::new(alloc);
    for id in ids.as_slice() {
        push_source(&mut those, rows, *id)?;
    }
    Ok(those)
}

/// Puts an id last if it is one of a source.
fn push_source<W: Rows>(those: &mut List<EntityId>, rows: &W, id: EntityId) -> Result<(), NoMemory>
    ensures { OnOk result (IfSome (W.rows rows.now) (λ R.
        ChoosesNext (IsSource (firsts R)) id.0 (numbers those.old) (numbers those.new))) }
{
    if is_source(rows, id) {
        those.push(id)
    } else {
        Ok(())
    }
}

/// Whether the first flow of an object leaves it.
fn is_source<W: Rows>(rows: &W, id: EntityId) -> bool
    ensures { IfSome (W.rows rows.now) (λ R. IsTrue result ↔ IsSource (firsts R) id.0) }
{
    if id.0 >= rows.known() {
        return false;
    }
    rows.first(id).out
}
