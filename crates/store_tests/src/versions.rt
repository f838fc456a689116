//! Versions of objects, and which pairs are linked.
use flow_base::{EntityId, Flow, How, NoMemory, Stamp};
use std::alloc::Global;
use std::test::Fail;
use table_salt::Salt;
use version_graph::Versions;

/// A source and a target.
type Step = (u32, u32);

/// The versions after these kept flows.
fn versions_of(alloc: Global, steps: &[Step]) -> Result<Versions, NoMemory> {
    let mut versions = Versions::new(alloc, Salt::fixed());
    for (from, to) in steps {
        let flow = Flow {
            from: EntityId(*from),
            to: EntityId(*to),
            how: How::Write,
            at: Stamp { ms: 0, place: 0 },
            serial: 0,
        };
        versions.reserve([flow].as_slice())?;
        versions.keep(&flow);
    }
    Ok(versions)
}

#[test]
fn a_flow_into_a_sealed_object_opens_a_version(rt: HostRuntime) -> Result<(), Fail> {
    let alloc = rt.alloc();
    // Kept flows, an object, its version, and whether that is sealed.
    let cases: [(&[Step], u32, u64, bool); 9] = [
        // An object without flows begins at version 0, unsealed.
        ([].as_slice(), 7, 0, false),
        // Flows into an unsealed object open nothing.
        ([(0, 1), (2, 1)].as_slice(), 1, 0, false),
        // A flow out of an object seals it.
        ([(0, 1)].as_slice(), 0, 0, true),
        ([(0, 1), (2, 1), (1, 3)].as_slice(), 1, 0, true),
        // A flow into a sealed object opens the next version, which the next flow out seals.
        ([(0, 1), (2, 0)].as_slice(), 0, 1, false),
        ([(0, 1), (2, 0), (3, 0)].as_slice(), 0, 1, false),
        ([(0, 1), (2, 0), (0, 1)].as_slice(), 0, 1, true),
        // Back and forth.
        ([(0, 1), (1, 0), (0, 1), (1, 0)].as_slice(), 0, 2, false),
        ([(0, 1), (1, 0), (0, 1), (1, 0)].as_slice(), 1, 1, true),
    ];
    for (steps, object, version, sealed) in cases {
        let versions = versions_of(alloc, steps)?;
        let id = EntityId(object);
        assert_eq!(rt; versions.current(id), version, "object {object}");
        assert_eq!(rt; versions.sealed(id), sealed, "object {object}");
    }
    Ok(())
}

#[test]
fn a_pair_is_linked_until_a_flow_enters_its_source(rt: HostRuntime) -> Result<(), Fail> {
    let alloc = rt.alloc();
    // Kept flows, a pair, and whether it is linked.
    let cases: [(&[Step], Step, bool); 8] = [
        ([].as_slice(), (0, 1), false),
        ([(0, 1)].as_slice(), (0, 1), true),
        ([(0, 1)].as_slice(), (1, 0), false),
        ([(0, 1), (2, 1)].as_slice(), (0, 1), true),
        ([(0, 1), (1, 3)].as_slice(), (0, 1), true),
        ([(0, 1), (2, 0)].as_slice(), (0, 1), false),
        ([(0, 1), (2, 0), (0, 1)].as_slice(), (0, 1), true),
        ([(0, 1), (2, 0), (0, 3)].as_slice(), (0, 1), false),
    ];
    for (steps, (from, to), linked) in cases {
        let versions = versions_of(alloc, steps)?;
        assert_eq!(rt;
            versions.linked(EntityId(from), EntityId(to)),
            linked,
            "{from} to {to}"
        );
    }
    Ok(())
}
