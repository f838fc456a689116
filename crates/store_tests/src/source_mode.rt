//! Which flows source mode keeps, the sources of an object, and which questions it answers.
use flow_base::{EntityId, Flow, How, NoMemory, Stamp};
use reach_model::Verdict;
use reach_rows::{First, Mark, Question, Reducer, Row};
use reduce_source::{SourceSets, Sources};
use std::alloc::Global;
use std::test::Fail;

/// A source and a target.
type Step = (u32, u32);

fn flow_at(step: Step, place: u64) -> Flow {
    let (from, to) = step;
    Flow {
        from: EntityId(from),
        to: EntityId(to),
        how: How::Write,
        at: Stamp { ms: place, place },
        serial: 0,
    }
}

fn row_of(flow: &Flow) -> Row {
    let mark = Mark {
        at: flow.at,
        how: flow.how,
        serial: flow.serial,
    };
    Row {
        from: flow.from,
        to: flow.to,
        first: mark,
        last: mark,
        before_to: None,
        before_from: None,
    }
}

/// Whether each of these flows in turn is kept, by tables that were carried through all of them,
/// and by new tables that recall the rows each time.
fn kept(alloc: Global, steps: &[Step]) -> Result<(Vec<bool>, Vec<bool>), NoMemory> {
    let mut carried = Sources::new(alloc);
    let mut rows = Vec::new(alloc);
    let mut first = Vec::new(alloc);
    let mut second = Vec::new(alloc);
    let mut place = 0u64;
    for step in steps {
        let flow = flow_at(*step, place);
        place = place.saturating_add(1);
        carried.reserve([flow].as_slice())?;
        let verdict = carried.decide(&flow);
        carried.note(&flow, verdict);
        first.push(verdict == Verdict::Add)?;
        let recalled = recalled(alloc, &rows)?;
        second.push(recalled.decide(&flow) == Verdict::Add)?;
        if verdict == Verdict::Add {
            rows.push(row_of(&flow))?;
        }
    }
    Ok((first, second))
}

/// New tables that recall these rows.
fn recalled(alloc: Global, rows: &[Row]) -> Result<Sources, NoMemory> {
    let mut sources = Sources::new(alloc);
    for row in rows {
        sources.recall(row)?;
    }
    Ok(sources)
}

#[test]
fn a_flow_is_kept_where_it_brings_its_target_a_source(rt: HostRuntime) -> Result<(), Fail> {
    let alloc = rt.alloc();
    // Flows, and whether each of them is kept.
    let cases: [(&[Step], &[bool]); 6] = [
        // Before the third flow the objects 1 and 2 have one source each, another one. It brings 2
        // the source 0, and so the fourth flow brings it to 3.
        (
            [(0, 1), (2, 3), (1, 2), (2, 3), (2, 3)].as_slice(),
            [true, true, true, true, false].as_slice(),
        ),
        // A flow back brings nothing.
        (
            [(0, 1), (1, 0), (0, 1)].as_slice(),
            [true, false, false].as_slice(),
        ),
        // Nor does a flow that goes past an object between.
        (
            [(0, 1), (1, 2), (0, 2)].as_slice(),
            [true, true, false].as_slice(),
        ),
        // Nor does a second way from one source.
        (
            [(0, 1), (0, 2), (1, 3), (2, 3)].as_slice(),
            [true, true, true, false].as_slice(),
        ),
        // A source of its own counts, and an object without flows has none.
        (
            [(0, 1), (2, 1), (1, 3), (2, 3), (2, 4)].as_slice(),
            [true, true, true, false, true].as_slice(),
        ),
        // An object that a flow entered first is no source: 1 has the source 0 alone.
        (
            [(0, 1), (0, 2), (1, 2), (3, 1), (1, 2)].as_slice(),
            [true, true, false, true, true].as_slice(),
        ),
    ];
    for (steps, expected) in cases {
        let (carried, recalled) = kept(alloc, steps)?;
        assert_eq!(rt; carried.as_slice(), expected);
        assert_eq!(rt; recalled.as_slice(), expected);
    }
    Ok(())
}

/// The sets after a flow from each of the objects 2 to 1,099 into the object 1, which a flow from
/// the object 0 enters first.
fn many_sources(alloc: Global) -> Result<SourceSets, NoMemory> {
    let mut sets = SourceSets::new(alloc);
    let first = flow_at((0, 1), 0);
    sets.reserve([first].as_slice())?;
    sets.union(first.to, first.from);
    for from in 2..1100u32 {
        let flow = flow_at((from, 1), from as u64);
        sets.reserve([flow].as_slice())?;
        sets.union(flow.to, flow.from);
    }
    Ok(sets)
}

#[test]
fn a_set_has_more_sources_than_a_block_has_bits(rt: HostRuntime) -> Result<(), Fail> {
    let sets = many_sources(rt.alloc())?;
    // An object, another one, and whether the first is a source of the second.
    let cases = [
        (0u32, 1u32, true),
        (1024, 1, true),
        (1025, 1, true),
        (1099, 1, true),
        (1100, 1, false),
        (1, 1, false),
        (1099, 1099, true),
        (1098, 1099, false),
        (0, 1100, false),
    ];
    for (source, id, expected) in cases {
        assert_eq!(rt; sets.is_source_of(EntityId(source), EntityId(id)), expected);
    }
    // The larger of two objects, the smaller, and whether it has each of its sources.
    let covered = [
        (1u32, 1099u32, true),
        (1099, 1, false),
        (1099, 1098, false),
        (1098, 1100, true),
        (1100, 1098, false),
    ];
    for (large, small, expected) in covered {
        assert_eq!(rt; sets.covers(EntityId(large), EntityId(small)), expected);
    }
    Ok(())
}

/// The sets after flows from the objects 3 and 0 into the object 1, and from there into the object
/// 2.
fn two_sources(alloc: Global) -> Result<SourceSets, NoMemory> {
    let mut sets = SourceSets::new(alloc);
    let flows = [flow_at((3, 1), 0), flow_at((0, 1), 1), flow_at((1, 2), 2)];
    for flow in flows {
        sets.reserve([flow].as_slice())?;
        sets.union(flow.to, flow.from);
    }
    Ok(sets)
}

#[test]
fn the_sources_of_an_object_ascend(rt: HostRuntime) -> Result<(), Fail> {
    let alloc = rt.alloc();
    let sets = two_sources(alloc)?;
    // An object and its sources.
    let cases: [(u32, &[EntityId]); 4] = [
        (0, [EntityId(0)].as_slice()),
        (1, [EntityId(0), EntityId(3)].as_slice()),
        (2, [EntityId(0), EntityId(3)].as_slice()),
        (4, [].as_slice()),
    ];
    for (id, expected) in cases {
        let sources = sets.of(alloc, EntityId(id))?;
        assert_eq!(rt; sources.as_slice(), expected);
    }
    Ok(())
}

#[test]
fn a_forward_question_needs_a_source(rt: HostRuntime) -> Result<(), Fail> {
    let sources = Sources::new(rt.alloc());
    let of = EntityId(0);
    // A start, whether the object's first flow at time 1000 leaves it, and whether its forward
    // question is answered.
    let cases = [
        (None, true, true),
        (None, false, false),
        (Some(1000), true, true),
        (Some(1001), true, false),
        (Some(1000), false, false),
    ];
    for (since, out, expected) in cases {
        let first = First {
            at: Stamp { ms: 1000, place: 0 },
            out,
        };
        assert_eq!(rt;
            sources.allowed(&Question::Fore { of, since }, first),
            expected
        );
        assert!(rt; sources.allowed(&Question::Back { of, until: since }, first));
    }
    Ok(())
}
