//! Flows kept as rows of plain and of continuous mode, and the answers over them.
ghost use Rattle.std.specs.Prelude.{[], IfOk, IfSome};
ghost use Rattle.reach_model.specs.Numbers.{IsLawfulWith};

use flow_base::{EntityId, Flow, How, List, NoMemory, Stamp};
use kept_flows::{KeptFlows, Way, flows_that_come_next_may_be_taken};
use reach_model::{Mode, lawful_flows_grow};
use reach_rows::{Plain, Question, Reducer, VecRows};
use reduce_continuous::Continuous;
use std::alloc::Global;
use std::test::Fail;
use table_salt::Salt;

/// A source, a target and a time.
type Step = (u8, u8, u64);

/// The flows of these steps in order, and how many objects they know. `None` if they aren't lawful.
fn lawful_flows(alloc: Global, steps: &[Step]) -> Result<Option<(List<Flow>, u32)>, NoMemory>
    ensures { IfOk result (λ made. IfSome made (λ (flows, count). IsLawfulWith count flows)) }
{
    lawful_flows_grow();
    let mut flows = List::new(alloc);
    let mut count = 0;
    let mut last = 0;
    for &(from, to, ms) in steps {
        let (from, to) = (u32::from(from), u32::from(to));
        if from == to || from > count || to > count.max(from + 1) || ms < last {
            return Ok(None);
        }
        let place = flows.as_slice().len() as u64;
        flows.push(Flow {
            from: EntityId(from),
            to: EntityId(to),
            how: How::Fork,
            at: Stamp { ms, place },
            serial: 0,
        })?;
        count = count.max((from + 1).max(to + 1));
        last = ms;
    }
    Ok(Some((flows, count)))
}

/// What a mode keeps of lawful flows.
fn kept_of<R: Reducer>(
    alloc: Global,
    reducer: R,
    flows: &[Flow],
    count: u32,
) -> Result<KeptFlows<R, VecRows>, NoMemory>
where
    R: Drop,
    requires stands { R.stands_for reducer [] }
    requires holds { R.holds reducer [] }
    requires lawful { IsLawfulWith count flows.now }
{
    flows_that_come_next_may_be_taken();
    let mut kept = KeptFlows::new(reducer, VecRows::new(alloc));
    kept.take(flows)?;
    Ok(kept)
}

/// A question about a known object has these numbers for its answer.
fn answers<R: Reducer>(
    alloc: Global,
    kept: &mut KeptFlows<R, VecRows>,
    question: &Question,
    expected: &[u32],
) -> bool {
    let (Question::Back { of, until: _ } | Question::Fore { of, since: _ }) = *question;
    if of.0 >= kept.known() {
        return false;
    }
    match kept.ask(alloc, question) {
        Ok(Some(ids)) => ids
            .as_slice()
            .iter()
            .map(|id| id.0)
            .eq(expected.iter().copied()),
        _ => false,
    }
}

/// From one known object to another, by flows no later than a time, leads a path whose flows have these places, or none.
fn leads<R: Reducer>(
    alloc: Global,
    kept: &mut KeptFlows<R, VecRows>,
    (from, to, until): (u32, u32, Option<u64>),
    expected: Option<&[u64]>,
) -> bool {
    if from >= kept.known() || to >= kept.known() {
        return false;
    }
    match (
        kept.path(alloc, EntityId(from), EntityId(to), until),
        expected,
    ) {
        (Ok(Way::Nowhere), None) => true,
        (Ok(Way::Along(flows)), Some(places)) => flows
            .as_slice()
            .iter()
            .map(|flow| flow.at.place)
            .eq(places.iter().copied()),
        _ => false,
    }
}

#[test]
fn rows_of_either_mode_answer_for_all_flows(rt: HostRuntime) -> Result<(), Fail> {
    let alloc = rt.alloc();
    // 0 writes to 1 twice, then 1 to 2, so the next write of 0 to 1 is a run of its own. At last 3 writes to 0.
    let steps = [(0, 1, 10), (0, 1, 20), (1, 2, 30), (0, 1, 40), (3, 0, 50)].as_slice();
    let back = |of, until| Question::Back {
        of: EntityId(of),
        until,
    };
    let fore = |of, since| Question::Fore {
        of: EntityId(of),
        since,
    };
    let cases: [(Question, &[u32]); 9] = [
        (back(2, None), [0, 1, 2].as_slice()),
        (back(2, Some(30)), [0, 1, 2].as_slice()),
        (back(2, Some(29)), [2].as_slice()),
        (back(1, None), [0, 1].as_slice()),
        (back(0, None), [0, 3].as_slice()),
        (fore(0, None), [0, 1, 2].as_slice()),
        (fore(0, Some(20)), [0, 1, 2].as_slice()),
        (fore(0, Some(21)), [0, 1].as_slice()),
        (fore(3, None), [0, 3].as_slice()),
    ];
    let Some((flows, count)) = lawful_flows(alloc, steps)? else {
        return Err(Fail::new("the steps aren't lawful"));
    };
    let mut all = kept_of(alloc, Plain::new(), flows.as_slice(), count)?;
    let mut merged = kept_of(
        alloc,
        Continuous::new(alloc, Salt::fixed()),
        flows.as_slice(),
        count,
    )?;
    assert_eq!(rt; (all.mode(), all.count(), all.known()), (Mode::Plain, 5, 4));
    assert_eq!(rt;
        (merged.mode(), merged.count(), merged.known()),
        (Mode::Continuous, 4, 4)
    );
    for (question, expected) in cases {
        assert!(rt; answers(alloc, &mut all, &question, expected));
        assert!(rt; answers(alloc, &mut merged, &question, expected));
    }
    Ok(())
}

#[test]
fn a_path_over_the_rows_of_either_mode_is_shown(rt: HostRuntime) -> Result<(), Fail> {
    let alloc = rt.alloc();
    // The steps of the test above.
    let steps = [(0, 1, 10), (0, 1, 20), (1, 2, 30), (0, 1, 40), (3, 0, 50)].as_slice();
    let Some((flows, count)) = lawful_flows(alloc, steps)? else {
        return Err(Fail::new("the steps aren't lawful"));
    };
    let mut all = kept_of(alloc, Plain::new(), flows.as_slice(), count)?;
    let mut merged = kept_of(
        alloc,
        Continuous::new(alloc, Salt::fixed()),
        flows.as_slice(),
        count,
    )?;
    // The second write of 0 is a row of its own in plain mode, and goes on with the first one's in continuous mode.
    assert!(rt; leads(alloc, &mut all, (0, 2, None), Some([1, 2].as_slice())));
    assert!(rt; leads(alloc, &mut merged, (0, 2, None), Some([0, 2].as_slice())));
    let ways: [((u32, u32, Option<u64>), Option<&[u64]>); 5] = [
        ((0, 2, Some(29)), None),
        ((0, 1, Some(19)), Some([0].as_slice())),
        ((3, 0, None), Some([4].as_slice())),
        ((3, 2, None), None),
        ((2, 2, Some(0)), Some([].as_slice())),
    ];
    for (asked, expected) in ways {
        assert!(rt; leads(alloc, &mut all, asked, expected));
        assert!(rt; leads(alloc, &mut merged, asked, expected));
    }
    Ok(())
}

#[test]
fn rows_of_an_earlier_run_answer_again(rt: HostRuntime) -> Result<(), Fail> {
    let alloc = rt.alloc();
    // The steps of the tests above.
    let steps = [(0, 1, 10), (0, 1, 20), (1, 2, 30), (0, 1, 40), (3, 0, 50)].as_slice();
    let Some((flows, count)) = lawful_flows(alloc, steps)? else {
        return Err(Fail::new("the steps aren't lawful"));
    };
    let merged = kept_of(
        alloc,
        Continuous::new(alloc, Salt::fixed()),
        flows.as_slice(),
        count,
    )?;
    let Ok(mut again) = KeptFlows::restore(
        Continuous::new(alloc, Salt::fixed()),
        merged.into_rows(),
    ) else {
        return Err(Fail::new("the rows aren't restored"));
    };
    assert_eq!(rt;
        (again.mode(), again.count(), again.known()),
        (Mode::Continuous, 4, 4)
    );
    let until = Question::Back {
        of: EntityId(2),
        until: Some(30),
    };
    assert!(rt; answers(alloc, &mut again, &until, [0, 1, 2].as_slice()));
    assert!(rt; leads(alloc, &mut again, (0, 2, None), Some([0, 2].as_slice())));
    Ok(())
}
