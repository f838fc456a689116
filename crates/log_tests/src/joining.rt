//! Records in, events out. The wanted events are worked out by hand from the rules of joining.

use audit_lex::{EventKey, LastStamp};
use audit_record::{Body, Read, Record, Syscall, read_line};
use flow_base::{Bytes, Limits, List, NoMemory};
use record_join::{Event, EventView, GroupView, Join, JoinClock, Taken, join_all, release_ripe};
use std::alloc::Global;
use std::test::Fail;

fn limits() -> Limits {
    let mut limits = Limits::standard();
    limits.groups = 3;
    limits.text = 20;
    limits.records = 2;
    limits
}

fn call() -> Body {
    Body::Syscall(Syscall {
        arch: 0xc000_003e,
        number: 0,
        success: None,
        exit: None,
        a0: 0,
        a1: 0,
        a2: 0,
        a3: 0,
        ppid: 1,
        pid: 7,
        exe: None,
    })
}

fn record(alloc: Global, ms: u64, serial: u32, body: Body) -> Record {
    Record {
        key: EventKey { ms, serial },
        line: Bytes::new(alloc),
        body,
    }
}

/// A record with a line of its own.
fn lined(alloc: Global, serial: u32, line: &[u8]) -> Result<Record, NoMemory> {
    Ok(Record {
        key: EventKey { ms: 5000, serial },
        line: Bytes::from_slice(alloc, line)?,
        body: Body::Cwd(None),
    })
}

/// The key, the time and the lateness of an event, and how many records it has.
fn told(event: Option<Event>) -> Option<(u64, u32, u64, bool, usize)> {
    match event {
        Some(event) => Some((
            event.key.ms,
            event.key.serial,
            event.ms,
            event.late,
            event.records.as_slice().len(),
        )),
        None => None,
    }
}

/// The same of an event that is borrowed.
fn lent(view: Option<EventView<'_>>) -> Option<(u64, u32, u64, bool, usize)> {
    match view {
        Some(view) => Some((
            view.key.ms,
            view.key.serial,
            view.ms,
            view.late,
            view.records.len(),
        )),
        None => None,
    }
}

/// Gives a record to a joiner in which nothing is ripe.
fn give(join: &mut Join, item: Record) -> Result<Taken, Fail> {
    if join.ripe() {
        return Err(Fail::new("an event was ripe"));
    }
    Ok(join.take(item)?)
}

/// Puts a group with as many records into another joiner.
fn put_back(alloc: Global, group: &GroupView<'_>, again: &mut Join) -> Result<(), Fail> {
    let EventKey { ms, serial } = group.key;
    for _ in group.records {
        give(again, record(alloc, ms, serial, Body::Cwd(None)))?;
    }
    if group.closed {
        give(again, record(alloc, ms, serial, Body::Eoe))?;
    }
    Ok(())
}

#[test]
fn a_group_waits_for_two_seconds(rt: HostRuntime) -> Result<(), Fail> {
    let alloc = rt.alloc();
    let mut join = Join::new(alloc, &limits());
    assert!(rt; !join.ripe());
    assert_eq!(rt;
        give(&mut join, record(alloc, 5000, 1, call()))?,
        Taken::Held
    );
    give(&mut join, record(alloc, 7000, 2, call()))?;
    // Exactly 2,000 ms above is not yet past.
    assert!(rt; !join.ripe());
    assert!(rt; join.peek().is_none());
    give(&mut join, record(alloc, 7001, 3, call()))?;
    assert!(rt; join.ripe());
    assert_eq!(rt; lent(join.peek()), Some((5000, 1, 5000, false, 1)));
    assert_eq!(rt; join.waiting(), 3);
    assert_eq!(rt; told(join.next()), Some((5000, 1, 5000, false, 1)));
    assert_eq!(rt; told(join.next()), None);
    assert_eq!(rt; join.waiting(), 2);
    assert_eq!(rt;
        join.clock(),
        JoinClock {
            seen: Some(7001),
            released: Some(EventKey {
                ms: 5000,
                serial: 1,
            }),
            effective: 5000,
        }
    );
    Ok(())
}

#[test]
fn ends_close_their_groups(rt: HostRuntime) -> Result<(), Fail> {
    let alloc = rt.alloc();
    let mut join = Join::new(alloc, &limits());
    // An end without a group closes nothing.
    assert_eq!(rt;
        give(&mut join, record(alloc, 5000, 1, Body::Eoe))?,
        Taken::Closed
    );
    assert_eq!(rt; join.waiting(), 0);
    give(&mut join, record(alloc, 5000, 1, call()))?;
    give(&mut join, record(alloc, 5000, 2, call()))?;
    assert_eq!(rt;
        give(&mut join, record(alloc, 5000, 2, Body::Eoe))?,
        Taken::Closed
    );
    // A closed group that isn't the least waits, and takes records.
    assert!(rt; !join.ripe());
    assert_eq!(rt;
        give(&mut join, record(alloc, 5000, 2, Body::Cwd(None)))?,
        Taken::Held
    );
    assert_eq!(rt;
        give(&mut join, record(alloc, 5000, 1, Body::Proctitle))?,
        Taken::Closed
    );
    assert_eq!(rt; told(join.next()), Some((5000, 1, 5000, false, 1)));
    assert_eq!(rt; told(join.next()), Some((5000, 2, 5000, false, 2)));
    assert_eq!(rt; told(join.next()), None);
    Ok(())
}

#[test]
fn late_events_keep_the_effective_time(rt: HostRuntime) -> Result<(), Fail> {
    let alloc = rt.alloc();
    let mut join = Join::new(alloc, &limits());
    for (ms, serial, wanted) in [
        (9000, 5, (9000, 5, 9000, false, 1)),
        (8000, 9, (8000, 9, 9000, true, 1)),
        // An equal key isn't late, one with a lower serial is.
        (9000, 5, (9000, 5, 9000, false, 1)),
        (9000, 4, (9000, 4, 9000, true, 1)),
        (9001, 1, (9001, 1, 9001, false, 1)),
    ] {
        give(&mut join, record(alloc, ms, serial, call()))?;
        give(&mut join, record(alloc, ms, serial, Body::Eoe))?;
        assert_eq!(rt; told(join.next()), Some(wanted));
    }
    Ok(())
}

#[test]
fn records_past_the_limit_and_second_calls_are_in_excess(rt: HostRuntime) -> Result<(), Fail> {
    let alloc = rt.alloc();
    let mut join = Join::new(alloc, &limits());
    assert_eq!(rt;
        give(&mut join, record(alloc, 5000, 1, call()))?,
        Taken::Held
    );
    assert_eq!(rt;
        give(&mut join, record(alloc, 5000, 1, call()))?,
        Taken::Excess
    );
    assert_eq!(rt;
        give(&mut join, record(alloc, 5000, 1, Body::Cwd(None)))?,
        Taken::Held
    );
    assert_eq!(rt;
        give(&mut join, record(alloc, 5000, 1, Body::Cwd(None)))?,
        Taken::Excess
    );
    assert_eq!(rt;
        give(&mut join, record(alloc, 5000, 1, Body::Eoe))?,
        Taken::Closed
    );
    assert_eq!(rt; told(join.next()), Some((5000, 1, 5000, false, 2)));
    Ok(())
}

#[test]
fn too_many_groups_release_the_least(rt: HostRuntime) -> Result<(), Fail> {
    let alloc = rt.alloc();
    let mut join = Join::new(alloc, &limits());
    for serial in [4, 3, 2] {
        give(&mut join, record(alloc, 5000, serial, call()))?;
        assert!(rt; !join.ripe());
    }
    give(&mut join, record(alloc, 5000, 5, call()))?;
    assert_eq!(rt; told(join.next()), Some((5000, 2, 5000, false, 1)));
    assert_eq!(rt; told(join.next()), None);
    Ok(())
}

#[test]
fn too_much_text_releases_the_least(rt: HostRuntime) -> Result<(), Fail> {
    let alloc = rt.alloc();
    let mut join = Join::new(alloc, &limits());
    give(&mut join, lined(alloc, 1, b"seven..".as_slice())?)?;
    give(&mut join, lined(alloc, 2, b"eight...".as_slice())?)?;
    give(&mut join, lined(alloc, 1, b"five.".as_slice())?)?;
    // At most 20 bytes may wait.
    assert!(rt; !join.ripe());
    give(&mut join, lined(alloc, 2, b"!".as_slice())?)?;
    assert_eq!(rt; told(join.next()), Some((5000, 1, 5000, false, 2)));
    assert_eq!(rt; told(join.next()), None);
    // 9 bytes are left, and 11 more fit.
    give(&mut join, lined(alloc, 3, b"eleven.....".as_slice())?)?;
    assert!(rt; !join.ripe());
    give(&mut join, lined(alloc, 3, b"!".as_slice())?)?;
    assert_eq!(rt; told(join.next()), Some((5000, 2, 5000, false, 2)));
    Ok(())
}

#[test]
fn a_joiner_is_made_again_from_its_groups(rt: HostRuntime) -> Result<(), Fail> {
    let alloc = rt.alloc();
    let limits = limits();
    let mut join = Join::new(alloc, &limits);
    give(&mut join, record(alloc, 5000, 1, call()))?;
    give(&mut join, record(alloc, 5000, 2, Body::Cwd(None)))?;
    give(&mut join, record(alloc, 5000, 2, Body::Eoe))?;
    let mut again = Join::resume(alloc, &limits, join.clock());
    let mut parts = join.parts();
    for _ in 0..2 {
        match parts.next() {
            Some(group) => put_back(alloc, &group, &mut again)?,
            None => assert!(rt; false),
        }
    }
    assert!(rt; parts.next().is_none());
    assert_eq!(rt; again.clock(), join.clock());
    assert_eq!(rt; again.waiting(), 2);
    assert!(rt; !again.ripe());
    give(&mut again, record(alloc, 5000, 1, Body::Eoe))?;
    assert_eq!(rt; told(again.next()), Some((5000, 1, 5000, false, 1)));
    assert_eq!(rt; told(again.next()), Some((5000, 2, 5000, false, 1)));
    assert_eq!(rt; told(again.next()), None);
    Ok(())
}

#[test]
fn a_settle_releases_all(rt: HostRuntime) -> Result<(), Fail> {
    let alloc = rt.alloc();
    let mut join = Join::new(alloc, &limits());
    give(&mut join, record(alloc, 6000, 1, call()))?;
    give(&mut join, record(alloc, 5000, 2, call()))?;
    let mut found = List::new(alloc);
    release_ripe(&mut join, &mut found)?;
    assert!(rt; found.as_slice().is_empty());
    join.settle();
    release_ripe(&mut join, &mut found)?;
    assert_eq!(rt; told(found.pop()), Some((6000, 1, 6000, false, 1)));
    assert_eq!(rt; told(found.pop()), Some((5000, 2, 5000, false, 1)));
    assert_eq!(rt; told(found.pop()), None);
    Ok(())
}

#[test]
fn a_list_of_records_is_joined(rt: HostRuntime) -> Result<(), Fail> {
    let alloc = rt.alloc();
    let items = vec![in alloc;
        record(alloc, 5000, 1, call()),
        record(alloc, 5000, 2, call()),
        record(alloc, 5000, 1, Body::Proctitle),
        record(alloc, 5000, 2, Body::Cwd(None)),
    ]?;
    let mut found = join_all(alloc, &limits(), items)?;
    assert_eq!(rt; told(found.pop()), Some((5000, 2, 5000, false, 2)));
    assert_eq!(rt; told(found.pop()), Some((5000, 1, 5000, false, 1)));
    assert_eq!(rt; told(found.pop()), None);
    Ok(())
}

/// Reads a line over `item`, and gives what it gives to a joiner.
fn read_and_give(
    alloc: Global,
    join: &mut Join,
    item: &mut Record,
    line: &[u8],
) -> Result<Read, Fail> {
    let read = read_line(alloc, line, 2000, &mut LastStamp::none(), item)?;
    match read {
        Read::Record => {
            if join.ripe() {
                return Err(Fail::new("an event was ripe"));
            }
            let taken = join.exchange(item)?;
            if taken != Taken::Held {
                return Err(Fail::new("a record was not held"));
            }
        }
        Read::End(key) => join.end(key),
        Read::Unused => {}
    }
    Ok(read)
}

/// The lines of the records of an event, joined by spaces.
fn lines_of(alloc: Global, view: Option<EventView<'_>>) -> Result<Bytes, NoMemory> {
    let mut text = Bytes::new(alloc);
    if let Some(view) = view {
        for item in view.records {
            text.append(item.line.as_slice())?;
            text.append(b" ".as_slice())?;
        }
    }
    Ok(text)
}

#[test]
fn the_memory_of_a_passed_event_holds_the_next_one(rt: HostRuntime) -> Result<(), Fail> {
    let alloc = rt.alloc();
    let mut join = Join::new(alloc, &Limits::standard());
    let mut item = Record::blank(alloc);
    let first = [
        b"type=CWD msg=audit(5.000:1): cwd=\"/a/long/first/path\"".as_slice(),
        b"type=MMAP msg=audit(5.000:1): fd=5".as_slice(),
        b"type=PATH msg=audit(5.000:1): item=0 name=\"/b\" nametype=NORMAL".as_slice(),
        b"type=EOE msg=audit(5.000:1):".as_slice(),
    ];
    for line in first {
        read_and_give(alloc, &mut join, &mut item, line)?;
    }
    assert_eq!(rt; lent(join.peek()), Some((5000, 1, 5000, false, 3)));
    if join.ripe() {
        join.pass();
    }
    // A shorter event, whose records are of other kinds in each place.
    let path = b"type=PATH msg=audit(6.000:2): item=1 name=\"/c\" nametype=CREATE".as_slice();
    let cwd = b"type=CWD msg=audit(6.000:2): cwd=(null)".as_slice();
    for line in [path, cwd, b"type=EOE msg=audit(6.000:2):".as_slice()] {
        read_and_give(alloc, &mut join, &mut item, line)?;
    }
    assert_eq!(rt; lent(join.peek()), Some((6000, 2, 6000, false, 2)));
    let mut wanted = Bytes::from_slice(alloc, path)?;
    wanted.append(b" ".as_slice())?;
    wanted.append(cwd)?;
    wanted.append(b" ".as_slice())?;
    assert!(rt; lines_of(alloc, join.peek())? == wanted);
    assert_eq!(rt; told(join.next()), Some((6000, 2, 6000, false, 2)));
    assert_eq!(rt; join.waiting(), 0);
    Ok(())
}
