//! Numbers and names of a few keys, worked out by hand from the rules.

use entity_names::Entities;
use flow_base::{Bytes, EntityId, Full, Key, Limit, Limits, Refused};
use std::alloc::Global;
use std::test::Fail;
use table_salt::Salt;

fn small() -> Limits {
    let mut limits = Limits::standard();
    limits.entities = 2;
    limits.names = 2;
    limits
}

fn process(pid: u32) -> Key {
    Key::Process { pid, life: 0 }
}

fn is_full(entered: &Result<EntityId, Refused>) -> bool {
    match entered {
        Err(Refused::Full(full)) => full.limit == Limit::Entities && full.number == 2,
        _ => false,
    }
}

fn is_number(entered: &Result<EntityId, Refused>, number: u32) -> bool {
    match entered {
        Ok(id) => id.0 == number,
        Err(_) => false,
    }
}

#[test]
fn keys_are_numbered_as_they_come(rt: HostRuntime) {
    let mut entities = Entities::new(rt.alloc(), Salt::fixed(), &small());
    assert!(rt; is_number(&entities.enter(process(7)), 0));
    assert!(rt; is_number(&entities.enter(process(5)), 1));
    assert!(rt; is_number(&entities.enter(process(7)), 0));
    assert!(rt; is_full(&entities.enter(process(9))));
    assert_eq!(rt; entities.count(), 2);
}

#[test]
fn names_come_before_their_key_and_stop_at_their_limit(rt: HostRuntime) -> Result<(), Fail> {
    let alloc = rt.alloc();
    let mut entities = Entities::new(alloc, Salt::fixed(), &small());
    for text in [
        b"/a".as_slice(),
        b"/b".as_slice(),
        b"/a".as_slice(),
        b"/c".as_slice(),
    ] {
        entities.add_name(process(7), Bytes::from_slice(alloc, text)?)?;
    }
    assert!(rt; entities.find(b"/b".as_slice())?.as_slice().is_empty());
    assert!(rt; is_number(&entities.enter(process(7)), 0));
    assert_eq!(rt;
        entities.find(b"/b".as_slice())?.as_slice(),
        [EntityId(0)].as_slice()
    );
    assert!(rt; entities.find(b"/c".as_slice())?.as_slice().is_empty());
    assert!(rt; entities.has_name(&process(7), b"/b".as_slice()));
    assert!(rt; !entities.has_name(&process(7), b"/c".as_slice()));
    assert!(rt; !entities.has_name(&process(5), b"/b".as_slice()));
    assert!(rt; entities.names(&process(5)).is_none());
    match entities.names(&process(7)) {
        Some([first, second]) => {
            assert_eq!(rt; first.as_slice(), b"/a".as_slice());
            assert_eq!(rt; second.as_slice(), b"/b".as_slice());
        }
        _ => assert!(rt; false),
    }
    Ok(())
}

#[test]
fn names_since_the_mark_are_handed_out_with_their_keys(rt: HostRuntime) -> Result<(), Fail> {
    let alloc = rt.alloc();
    let mut entities = Entities::new(alloc, Salt::fixed(), &small());
    for pid in [7, 5, 3] {
        entities.add_name(process(pid), Bytes::from_slice(alloc, b"/a".as_slice())?)?;
    }
    assert_eq!(rt; entities.new_names()?.as_slice().len(), 3);
    entities.mark_saved();
    assert!(rt; entities.new_names()?.as_slice().is_empty());
    entities.add_name(process(7), Bytes::from_slice(alloc, b"/a".as_slice())?)?;
    entities.add_name(process(5), Bytes::from_slice(alloc, b"/b".as_slice())?)?;
    match entities.new_names()?.as_slice() {
        [one] => {
            assert!(rt; one.key == process(5));
            assert_eq!(rt; one.text.as_slice(), b"/b".as_slice());
        }
        _ => assert!(rt; false),
    }
    assert!(rt; entities.has_name(&process(5), b"/a".as_slice()));
    Ok(())
}

#[test]
fn the_last_keys_are_copied(rt: HostRuntime) -> Result<(), Fail> {
    let mut entities = Entities::new(rt.alloc(), Salt::fixed(), &small());
    assert!(rt; is_number(&entities.enter(process(7)), 0));
    assert!(rt; is_number(&entities.enter(process(5)), 1));
    match entities.copy_from(1)?.as_slice() {
        [key] => assert!(rt; *key == process(5)),
        _ => assert!(rt; false),
    }
    assert!(rt; entities.copy_from(3)?.as_slice().is_empty());
    Ok(())
}
