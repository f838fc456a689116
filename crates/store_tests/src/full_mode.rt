//! Which flows full mode keeps, and which questions it answers.
use flow_base::{EntityId, Flow, How, NoMemory, Stamp};
use reach_model::Verdict;
use reach_rows::{First, Mark, Question, Reducer, Row};
use reduce_full::Full;
use std::alloc::Global;
use std::test::Fail;
use table_salt::Salt;

/// A source and a target.
type Step = (u32, u32);

fn flow_at(step: Step, place: u64) -> Flow {
    let (from, to) = step;
    Flow {
        from: EntityId(from),
        to: EntityId(to),
        how: How::Write,
        at: Stamp { ms: place, place },
        serial: 0,
    }
}

fn row_of(flow: &Flow) -> Row {
    let mark = Mark {
        at: flow.at,
        how: flow.how,
        serial: flow.serial,
    };
    Row {
        from: flow.from,
        to: flow.to,
        first: mark,
        last: mark,
        before_to: None,
        before_from: None,
    }
}

/// Whether each of these flows in turn is kept, by tables that were carried through all of them, and by new tables that
/// recall the rows each time.
fn kept(alloc: Global, steps: &[Step]) -> Result<(Vec<bool>, Vec<bool>), NoMemory> {
    let mut carried = Full::new(alloc, Salt::fixed());
    let mut rows = Vec::new(alloc);
    let mut first = Vec::new(alloc);
    let mut second = Vec::new(alloc);
    let mut place = 0u64;
    for step in steps {
        let flow = flow_at(*step, place);
        place = place.saturating_add(1);
        carried.reserve([flow].as_slice())?;
        let verdict = carried.decide(&flow);
        carried.note(&flow, verdict);
        first.push(verdict == Verdict::Add)?;
        let recalled = recalled(alloc, &rows)?;
        second.push(recalled.decide(&flow) == Verdict::Add)?;
        if verdict == Verdict::Add {
            rows.push(row_of(&flow))?;
        }
    }
    Ok((first, second))
}

/// New tables that recall these rows.
fn recalled(alloc: Global, rows: &[Row]) -> Result<Full, NoMemory> {
    let mut full = Full::new(alloc, Salt::fixed());
    for row in rows {
        full.recall(row)?;
    }
    Ok(full)
}

#[test]
fn a_flow_is_dropped_until_a_flow_enters_its_source(rt: HostRuntime) -> Result<(), Fail> {
    let alloc = rt.alloc();
    // Flows, and whether each of them is kept.
    let cases: [(&[Step], &[bool]); 6] = [
        // A flow of another pair into the target changes nothing.
        (
            [(0, 1), (2, 1), (0, 1)].as_slice(),
            [true, true, false].as_slice(),
        ),
        // A flow into the source does.
        (
            [(0, 1), (2, 0), (0, 1)].as_slice(),
            [true, true, true].as_slice(),
        ),
        // A flow out of the target changes nothing.
        (
            [(0, 1), (1, 2), (0, 1)].as_slice(),
            [true, true, false].as_slice(),
        ),
        // Only kept flows count: the second flow from 2 to 0 is dropped.
        (
            [(2, 0), (0, 1), (2, 0), (0, 1)].as_slice(),
            [true, true, false, false].as_slice(),
        ),
        // Another pair of the source isn't linked by its new version.
        (
            [(0, 1), (0, 3), (2, 0), (0, 3), (0, 1), (0, 3)].as_slice(),
            [true, true, true, true, true, false].as_slice(),
        ),
        // Back and forth.
        (
            [(0, 1), (1, 0), (0, 1), (1, 0)].as_slice(),
            [true, true, true, true].as_slice(),
        ),
    ];
    for (steps, expected) in cases {
        let (carried, recalled) = kept(alloc, steps)?;
        assert_eq!(rt; carried.as_slice(), expected);
        assert_eq!(rt; recalled.as_slice(), expected);
    }
    Ok(())
}

#[test]
fn a_start_after_the_first_flow_is_refused(rt: HostRuntime) -> Result<(), Fail> {
    let full = Full::new(rt.alloc(), Salt::fixed());
    let first = First {
        at: Stamp { ms: 1000, place: 0 },
        out: true,
    };
    let of = EntityId(0);
    let cases = [
        (Question::Back { of, until: None }, true),
        (
            Question::Back {
                of,
                until: Some(500),
            },
            true,
        ),
        (Question::Fore { of, since: None }, true),
        (
            Question::Fore {
                of,
                since: Some(1000),
            },
            true,
        ),
        (
            Question::Fore {
                of,
                since: Some(1001),
            },
            false,
        ),
    ];
    for (question, allowed) in cases {
        assert_eq!(rt; full.allowed(&question, first), allowed);
    }
    Ok(())
}
