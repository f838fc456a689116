//! Questions over a store on a disk that counts its calls. Rows are read through the cache of the disk's blocks.
use crate::engine_over_a_store::{OverDisk, disk_after, engine_on};
use flow_base::{Bytes, EntityId, List, NoMemory};
use itoa::Buffer;
use outside::{MemDisk, StopDisk};
use reach_rows::Question;
use report_json::Ask;
use std::alloc::Global;
use std::test::Fail;

/// More calls than are made here.
const CALLS: u64 = 1_000_000;

/// A process opens a file, which is object 0, and reads it a thousand times.
fn log_of_reads(alloc: Global) -> Result<Bytes, NoMemory> {
    let mut log = Bytes::from_slice(
        alloc,
        b"type=SYSCALL msg=audit(1.000:1): arch=c000003e syscall=257 success=yes exit=3 a0=ffffff9c a1=0 a2=80000 a3=0 items=0 ppid=1 pid=100 comm=\"p\" exe=\"/p\"\ntype=PATH msg=audit(1.000:1): item=0 name=\"/f7\" inode=7 dev=08:01 nametype=NORMAL\n",
    )?;
    let mut buffer = Buffer::new();
    for serial in 2..1002u32 {
        log.append(b"type=SYSCALL msg=audit(1.000:")?;
        log.append(buffer.format(serial).as_bytes())?;
        log.append(
            b"): arch=c000003e syscall=0 success=yes exit=1 a0=3 a1=0 a2=1 a3=0 items=0 ppid=1 pid=100 comm=\"p\" exe=\"/p\"\n",
        )?;
    }
    Ok(log)
}

/// The bytes of a store of that log, which has a thousand rows into the process, object 1.
fn store_of_reads(alloc: Global) -> Result<Option<MemDisk>, NoMemory> {
    let log = log_of_reads(alloc)?;
    let disk = MemDisk::new(alloc, Bytes::new(alloc), List::new(alloc));
    match engine_on(alloc, disk) {
        Some(engine) => Ok(disk_after(engine, log.as_slice(), true)),
        None => Ok(None),
    }
}

/// Asks what reaches the process, and says whether it is told.
fn asks(engine: &mut OverDisk<StopDisk<MemDisk>>) -> bool {
    let back = Ask::Question(Question::Back {
        of: EntityId(1),
        until: None,
    });
    engine.ask(&back).is_ok()
}

/// Asks that so often, and says whether it is told each time.
fn asks_often(engine: &mut OverDisk<StopDisk<MemDisk>>, times: u32) -> bool {
    for _ in 0..times {
        if !asks(engine) {
            return false;
        }
    }
    true
}

/// How many calls on the disk it takes to open a store and to ask so often.
fn calls_for(alloc: Global, store: MemDisk, times: u32) -> Option<u64> {
    let disk = StopDisk {
        disk: store,
        left: CALLS,
        failed: 0,
    };
    let mut engine = engine_on(alloc, disk)?;
    if !asks_often(&mut engine, times) {
        return None;
    }
    Some(CALLS.saturating_sub(engine.into_keep().into_disk().left))
}

/// How many calls on the disk these questions take over a new store, beside those that open it.
fn calls_of_questions(alloc: Global, times: u32) -> Result<Option<u64>, NoMemory> {
    let (Some(one), Some(other)) = (store_of_reads(alloc)?, store_of_reads(alloc)?) else {
        return Ok(None);
    };
    match (calls_for(alloc, one, 0), calls_for(alloc, other, times)) {
        (Some(opening), Some(calls)) => Ok(Some(calls.saturating_sub(opening))),
        _ => Ok(None),
    }
}

// Each question reads a thousand rows of 46 bytes. Only those of the last block, which has at most 89 of them, and which a
// commit may change, are read from the disk again.
#[test]
fn a_block_is_read_once_for_many_rows(rt: HostRuntime) -> Result<(), Fail> {
    for times in [1, 10] {
        let calls = calls_of_questions(rt.alloc(), times)?;
        assert!(rt; calls.is_some());
        assert!(rt;
            calls <= Some(89 * u64::from(times) + 12),
            "{times} questions"
        );
    }
    Ok(())
}
