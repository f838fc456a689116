//! Commits over disks in memory, whole and stopped.
use batch_log::{Batch, BatchLog, CommitFault, LogFault};
use flow_base::{Bytes, Full, Limit, Limits, List};
use outside::{MemDisk, StopDisk};
use std::alloc::Global;
use std::test::Fail;

const FIRST: [u8; 13] = [0xA5, 3, 0, 0, 0, 0, 0, 0, 0, b'o', b'n', b'e', 0x5A];

const BOTH: [u8; 25] = [
    0xA5, 3, 0, 0, 0, 0, 0, 0, 0, b'o', b'n', b'e', 0xA5, 3, 0, 0, 0, 0, 0, 0, 0, b't', b'w', b'o',
    0x5A,
];

fn disk_with(alloc: Global, bytes: &[u8]) -> Result<MemDisk, Fail> {
    let bytes = Bytes::from_slice(alloc, bytes)?;
    Ok(MemDisk::new(alloc, bytes, List::new(alloc)))
}

#[test]
fn two_batches_stand_one_after_the_other_and_open_again(rt: HostRuntime) -> Result<(), Fail> {
    let alloc = rt.alloc();
    let limits = Limits::standard();
    let mut disk = disk_with(alloc, b"".as_slice())?;
    let (mut log, batches) = BatchLog::open_on(alloc, &limits, &mut disk)?;
    assert!(rt; batches.as_slice().is_empty());
    log.commit(&mut disk, b"one".as_slice())?;
    assert_eq!(rt; disk.bytes(), FIRST.as_slice());
    log.commit(&mut disk, b"two".as_slice())?;
    assert_eq!(rt; disk.bytes(), BOTH.as_slice());
    let (log, batches) = BatchLog::open_on(alloc, &limits, &mut disk)?;
    assert!(rt; log.usable());
    let wanted = [
        Batch { gate: 0, length: 3 },
        Batch {
            gate: 12,
            length: 3,
        },
    ];
    assert_eq!(rt; batches.as_slice(), wanted.as_slice());
    Ok(())
}

#[test]
fn what_stands_after_a_closed_gate_does_not_count(rt: HostRuntime) -> Result<(), Fail> {
    let alloc = rt.alloc();
    let limits = Limits::standard();
    let mut torn = Bytes::from_slice(alloc, FIRST.as_slice())?;
    torn.append(&[3, 0, 7, 7, 7, 0xA5, 9])?;
    let mut disk = disk_with(alloc, torn.as_slice())?;
    let (mut log, batches) = BatchLog::open_on(alloc, &limits, &mut disk)?;
    assert_eq!(rt;
        batches.as_slice(),
        [Batch { gate: 0, length: 3 }].as_slice()
    );
    log.commit(&mut disk, b"two".as_slice())?;
    assert_eq!(rt; disk.bytes(), BOTH.as_slice());
    Ok(())
}

#[test]
fn a_bad_store_is_named_by_its_first_bad_gate(rt: HostRuntime) -> Result<(), Fail> {
    let alloc = rt.alloc();
    let limits = Limits::standard();
    let cases: [(&[u8], u64); 4] = [
        (&[7], 0),
        (&FIRST[..12], 0),
        (&BOTH[..24], 12),
        (&BOTH[..15], 12),
    ];
    for (bytes, place) in cases.iter() {
        let mut disk = disk_with(alloc, bytes)?;
        let opened = BatchLog::open_on(alloc, &limits, &mut disk);
        assert!(rt; matches!(opened, Err(LogFault::BadStore(at)) if at == *place));
    }
    Ok(())
}

#[test]
fn a_commit_that_stops_leaves_the_batches_from_before_or_these_and_the_new_one(
    rt: HostRuntime,
) -> Result<(), Fail> {
    let alloc = rt.alloc();
    let limits = Limits::standard();
    for left in 0..4 {
        let mut disk = disk_with(alloc, FIRST.as_slice())?;
        let (mut log, _) = BatchLog::open_on(alloc, &limits, &mut disk)?;
        let mut disk = StopDisk {
            disk,
            left,
            failed: 0,
        };
        let result = log.commit(&mut disk, b"two".as_slice());
        assert_eq!(rt; result, Err(CommitFault::StoreFault));
        assert!(rt; !log.usable());
        assert_eq!(rt; disk.failed, 1);
        let StopDisk {
            mut disk,
            left: _,
            failed: _,
        } = disk;
        let (_, batches) = BatchLog::open_on(alloc, &limits, &mut disk)?;
        // The gate is opened by the third call.
        let wanted = if left < 3 { 1 } else { 2 };
        assert_eq!(rt; batches.as_slice().len(), wanted);
    }
    Ok(())
}

#[test]
fn a_full_payload_or_disk_is_refused_and_nothing_is_written(rt: HostRuntime) -> Result<(), Fail> {
    let alloc = rt.alloc();
    let mut limits = Limits::standard();
    limits.payload = 4;
    limits.store = 24;
    let cases: [(&[u8], Limit, u64); 2] = [
        (b"three", Limit::Payload, 4),
        (b"two", Limit::Store, 24),
    ];
    for (payload, limit, number) in cases.iter() {
        let mut disk = disk_with(alloc, FIRST.as_slice())?;
        let (mut log, _) = BatchLog::open_on(alloc, &limits, &mut disk)?;
        let wanted = Full {
            limit: *limit,
            number: *number,
        };
        assert_eq!(rt;
            log.commit(&mut disk, payload),
            Err(CommitFault::Full(wanted))
        );
        assert!(rt; log.usable());
        assert_eq!(rt; disk.bytes(), FIRST.as_slice());
    }
    Ok(())
}
