ghost use Rattle.std.specs.Prelude.{◌≡◌, IfOk};

use crate::table::Table;
use crate::walks::{back, fore, way};
use flow_base::{EntityId, Flow, How, List, NoMemory, Stamp};
use query_walk::WalkFault;
use reach_model::Verdict;
use reach_rows::{Mark, Plain, Reducer, Row};
use reduce_continuous::Continuous;
use std::alloc::Global;
use std::test::Fail;
use table_salt::Salt;

/// A source, a target and a time.
type Step = (u32, u32, u64);

/// A source, a target, and the time and place of the first and of the last flow.
type Written = (u32, u32, u64, u64, u64, u64);

fn mark(ms: u64, place: u64) -> Mark {
    Mark {
        at: Stamp { ms, place },
        how: How::Write,
        serial: 0,
    }
}

fn row(written: Written) -> Row {
    let (from, to, first_ms, first_place, last_ms, last_place) = written;
    Row {
        from: EntityId(from),
        to: EntityId(to),
        first: mark(first_ms, first_place),
        last: mark(last_ms, last_place),
        before_to: None,
        before_from: None,
    }
}

/// A table of rows between this many objects.
fn table(alloc: Global, written: &[Written], known: u32) -> Result<Table, NoMemory>
    ensures { IfOk result (λ made. made.known ≡ known) }
{
    let mut rows = Vec::new(alloc);
    for written in written {
        rows.push(row(*written))?;
    }
    Table::new(alloc, rows, known)
}

fn are(ids: &List<EntityId>, expected: &[u32]) -> bool {
    ids.as_slice()
        .iter()
        .map(|id| id.0)
        .eq(expected.iter().copied())
}

#[test]
fn walks_go_in_the_order_of_first_and_last_flows(rt: HostRuntime) -> Result<(), Fail> {
    let alloc = rt.alloc();
    // 0 writes to 1 twice, then 1 to 2, then 0 to 1 again.
    let merged = [
        (0, 1, 10, 0, 20, 1),
        (1, 2, 30, 2, 30, 2),
        (0, 1, 40, 3, 40, 3),
    ]
    .as_slice();
    // 0 goes on writing to 1 after 2 has written to 0, so the order of rows isn't that of their last flows.
    let long = [(0, 1, 10, 0, 50, 5), (2, 0, 30, 3, 30, 3)].as_slice();
    let backward: [(&[Written], u32, Option<u64>, &[u32]); 8] = [
        (merged, 2, None, [0, 1, 2].as_slice()),
        (merged, 2, Some(30), [0, 1, 2].as_slice()),
        (merged, 2, Some(29), [2].as_slice()),
        (merged, 1, Some(10), [0, 1].as_slice()),
        (merged, 1, Some(9), [1].as_slice()),
        (merged, 0, None, [0].as_slice()),
        (long, 1, None, [0, 1].as_slice()),
        (long, 0, None, [0, 2].as_slice()),
    ];
    for (written, of, until, expected) in backward {
        let mut rows = table(alloc, written, 3)?;
        assert!(rt; of < 3);
        let Ok(found) = back(alloc, &mut rows, EntityId(of), until) else {
            return Err(Fail::new("a walk backward failed"));
        };
        assert!(rt; are(&found, expected), "back {of}");
    }
    let forward: [(&[Written], u32, Option<u64>, &[u32]); 8] = [
        (merged, 0, None, [0, 1, 2].as_slice()),
        (merged, 0, Some(20), [0, 1, 2].as_slice()),
        (merged, 0, Some(21), [0, 1].as_slice()),
        (merged, 0, Some(40), [0, 1].as_slice()),
        (merged, 0, Some(41), [0].as_slice()),
        (merged, 2, None, [2].as_slice()),
        (long, 2, None, [0, 1, 2].as_slice()),
        (long, 0, None, [0, 1].as_slice()),
    ];
    for (written, of, since, expected) in forward {
        let mut rows = table(alloc, written, 3)?;
        assert!(rt; of < 3);
        let Ok(found) = fore(alloc, &mut rows, EntityId(of), since) else {
            return Err(Fail::new("a walk forward failed"));
        };
        assert!(rt; are(&found, expected), "fore {of}");
    }
    Ok(())
}

/// The places of these flows.
fn have_places(flows: &List<Flow>, expected: &[u64]) -> bool {
    flows
        .as_slice()
        .iter()
        .map(|flow| flow.at.place)
        .eq(expected.iter().copied())
}

#[test]
fn a_path_goes_by_first_flows_of_ascending_places(rt: HostRuntime) -> Result<(), Fail> {
    let alloc = rt.alloc();
    // The tables of the walks above.
    let merged = [
        (0, 1, 10, 0, 20, 1),
        (1, 2, 30, 2, 30, 2),
        (0, 1, 40, 3, 40, 3),
    ]
    .as_slice();
    let long = [(0, 1, 10, 0, 50, 5), (2, 0, 30, 3, 30, 3)].as_slice();
    // From, to and until, with the places of the path's flows.
    let cases: [(&[Written], u32, u32, Option<u64>, Option<&[u64]>); 10] = [
        (merged, 0, 2, None, Some([0, 2].as_slice())),
        (merged, 0, 2, Some(30), Some([0, 2].as_slice())),
        (merged, 0, 2, Some(29), None),
        // Of two paths, by the later row, unless it is too late.
        (merged, 0, 1, None, Some([3].as_slice())),
        (merged, 0, 1, Some(39), Some([0].as_slice())),
        (merged, 1, 1, Some(0), Some([].as_slice())),
        (merged, 2, 0, None, None),
        (merged, 1, 0, None, None),
        (long, 2, 0, None, Some([3].as_slice())),
        // The row from 0 to 1 counts as its first flow, which came before 2 wrote to 0.
        (long, 2, 1, None, None),
    ];
    for (written, from, to, until, expected) in cases {
        let mut rows = table(alloc, written, 3)?;
        assert!(rt; from < 3);
        assert!(rt; to < 3);
        let Ok(found) = way(alloc, &mut rows, EntityId(from), EntityId(to), until) else {
            return Err(Fail::new("a search for a path failed"));
        };
        match (found, expected) {
            (None, None) => {}
            (Some(flows), Some(places)) => {
                assert!(rt; have_places(&flows, places), "from {from} to {to}");
            }
            _ => return Err(Fail::new("a path is shown where none is, or the other way round")),
        }
    }
    Ok(())
}

#[test]
fn walks_read_the_rows_of_their_answers_once(rt: HostRuntime) -> Result<(), Fail> {
    let alloc = rt.alloc();
    // Three objects flow into 1, and 1 into 4, of which two later rows leave 0 and enter 2.
    let star = [
        (0, 1, 10, 0, 10, 0),
        (2, 1, 20, 1, 20, 1),
        (3, 1, 30, 2, 30, 2),
        (1, 4, 40, 3, 40, 3),
        (0, 2, 50, 4, 50, 4),
        (0, 2, 60, 5, 60, 5),
    ]
    .as_slice();
    // Back and forth between 0 and 1, and once from 1 to 2 in between.
    let to_and_fro = [
        (0, 1, 1, 0, 1, 0),
        (1, 0, 2, 1, 2, 1),
        (1, 2, 3, 2, 3, 2),
        (0, 1, 4, 3, 4, 3),
        (1, 0, 5, 4, 5, 4),
    ]
    .as_slice();
    // The table, the object, and how many rows enter the objects that reach it and leave the objects that it reaches.
    let cases: [(&[Written], u32, u64, u64); 8] = [
        (star, 0, 0, 5),
        (star, 1, 5, 1),
        (star, 2, 2, 2),
        (star, 3, 0, 2),
        (star, 4, 6, 0),
        (to_and_fro, 0, 4, 5),
        (to_and_fro, 1, 4, 5),
        (to_and_fro, 2, 5, 0),
    ];
    for (written, of, into, from) in cases {
        let mut rows = table(alloc, written, 5)?;
        assert!(rt; of < 5);
        assert!(rt; back(alloc, &mut rows, EntityId(of), None).is_ok());
        assert_eq!(rt; rows.read_once(), Some(into), "back {of}");
        let mut rows = table(alloc, written, 5)?;
        assert!(rt; fore(alloc, &mut rows, EntityId(of), None).is_ok());
        assert_eq!(rt; rows.read_once(), Some(from), "fore {of}");
        let mut rows = table(alloc, written, 5)?;
        let other = if of == 0 { 1 } else { 0 };
        assert!(rt; other < 5);
        assert!(rt; way(alloc, &mut rows, EntityId(other), EntityId(of), None).is_ok());
        assert_eq!(rt; rows.read_once(), Some(into), "why {other} {of}");
    }
    Ok(())
}

#[test]
fn a_fault_of_a_row_is_handed_on_by_its_cause(rt: HostRuntime) -> Result<(), Fail> {
    let alloc = rt.alloc();
    let written = [(0, 1, 10, 0, 10, 0), (1, 2, 20, 1, 20, 1)].as_slice();
    let mut failing = table(alloc, written, 3)?;
    failing.fails = Some(1);
    assert_eq!(rt;
        back(alloc, &mut failing, EntityId(2), None).err(),
        Some(WalkFault::StoreFault)
    );
    assert_eq!(rt;
        fore(alloc, &mut failing, EntityId(0), None).err(),
        Some(WalkFault::StoreFault)
    );
    assert_eq!(rt;
        way(alloc, &mut failing, EntityId(0), EntityId(2), None).err(),
        Some(WalkFault::StoreFault)
    );
    assert_eq!(rt; failing.faults, 3);
    // The row that fails isn't read for what reaches object 1.
    assert!(rt; back(alloc, &mut failing, EntityId(1), None).is_ok());
    let written = [(0, 1, 10, 0, 10, 0), (2, 1, 20, 1, 20, 1)].as_slice();
    let mut bad = table(alloc, written, 2)?;
    assert_eq!(rt;
        back(alloc, &mut bad, EntityId(1), None).err(),
        Some(WalkFault::BadStore(1))
    );
    assert_eq!(rt;
        way(alloc, &mut bad, EntityId(0), EntityId(1), None).err(),
        Some(WalkFault::BadStore(1))
    );
    let written = [(0, 2, 10, 0, 10, 0), (0, 1, 20, 1, 20, 1)].as_slice();
    let mut bad = table(alloc, written, 2)?;
    assert_eq!(rt;
        fore(alloc, &mut bad, EntityId(0), None).err(),
        Some(WalkFault::BadStore(0))
    );
    Ok(())
}

/// The rows that a mode keeps of the flows of these steps.
fn rows_of<R: Reducer>(
    alloc: Global,
    reducer: &mut R,
    steps: &[Step],
) -> Result<Vec<Row>, NoMemory> {
    let mut rows: Vec<Row> = Vec::new(alloc);
    for (place, &(from, to, ms)) in steps.iter().enumerate() {
        let at = Stamp {
            ms,
            place: place as u64,
        };
        let flow = Flow {
            from: EntityId(from),
            to: EntityId(to),
            how: How::Write,
            at,
            serial: 0,
        };
        let verdict = decided(reducer, &flow)?;
        let (ms, place) = (at.ms, at.place);
        match verdict {
            Verdict::Drop => {}
            Verdict::Add => rows.push(row((from, to, ms, place, ms, place)))?,
            Verdict::Extend { row } => {
                if let Some(kept) = rows.get_mut(row as usize) {
                    kept.last = mark(ms, place);
                }
            }
        }
    }
    Ok(rows)
}

/// The verdict on a flow, which is then taken in.
fn decided<R: Reducer>(reducer: &mut R, flow: &Flow) -> Result<Verdict, NoMemory> {
    reducer.reserve([*flow].as_slice())?;
    let verdict = reducer.decide(flow);
    reducer.note(flow, verdict);
    Ok(verdict)
}

#[test]
fn merged_rows_answer_as_all_flows_do(rt: HostRuntime) -> Result<(), Fail> {
    let alloc = rt.alloc();
    // Each list of steps with the number of rows that continuous mode keeps of it.
    let cases: [(&[Step], usize); 6] = [
        // A run without anything between is one row.
        ([(0, 1, 10), (0, 1, 20), (0, 1, 30)].as_slice(), 1),
        // A flow into the source parts it.
        ([(0, 1, 10), (2, 0, 20), (0, 1, 30)].as_slice(), 3),
        // A flow out of the target parts it.
        ([(0, 1, 10), (1, 2, 20), (0, 1, 30)].as_slice(), 3),
        // Flows out of the source and into the target don't.
        (
            [(0, 1, 10), (0, 2, 20), (2, 1, 25), (0, 1, 30)].as_slice(),
            3,
        ),
        // Two pairs in turn.
        (
            [(0, 1, 10), (2, 1, 10), (0, 1, 20), (2, 1, 30)].as_slice(),
            2,
        ),
        // Back and forth.
        ([(0, 1, 1), (1, 0, 2), (0, 1, 3), (1, 0, 4)].as_slice(), 4),
    ];
    for (steps, kept) in cases {
        let plain = rows_of(alloc, &mut Plain::new(), steps)?;
        let merged = rows_of(alloc, &mut Continuous::new(alloc, Salt::fixed()), steps)?;
        assert_eq!(rt; plain.len(), steps.len());
        assert_eq!(rt; merged.len(), kept);
        let mut plain = Table::new(alloc, plain, 3)?;
        let mut merged = Table::new(alloc, merged, 3)?;
        for of in 0..3 {
            for time in [None, Some(10), Some(15), Some(20), Some(25), Some(30)] {
                assert!(rt;
                    agree(alloc, &mut plain, &mut merged, EntityId(of), time),
                    "object {of}"
                );
            }
        }
    }
    Ok(())
}

/// Both tables know the object and give the same answers to both questions about it.
fn agree(
    alloc: Global,
    plain: &mut Table,
    merged: &mut Table,
    of: EntityId,
    time: Option<u64>,
) -> bool {
    if of.0 >= plain.known {
        return false;
    }
    if of.0 >= merged.known {
        return false;
    }
    let all_back = back(alloc, plain, of, time);
    let few_back = back(alloc, merged, of, time);
    let all_fore = fore(alloc, plain, of, time);
    let few_fore = fore(alloc, merged, of, time);
    same(&all_back, &few_back) && same(&all_fore, &few_fore)
}

/// Both walks gave the same ids.
fn same(all: &Result<List<EntityId>, WalkFault>, few: &Result<List<EntityId>, WalkFault>) -> bool {
    match (all, few) {
        (Ok(all), Ok(few)) => all.as_slice() == few.as_slice(),
        _ => false,
    }
}
