//! Sources, sinks and disks in memory, and a sink that takes less than it is given.
ghost use Rattle.std.specs.Prelude.{◌≡◌, ◌-◌, ◌^◌, Some};

use flow_base::{Bytes, List};
use outside::{
    CleanSource, Disk, Failed, MemDisk, MemSink, MemSource, Sink, Source, StopDisk, WriteFault,
    put_all,
};
use std::test::Fail;

// A sink that takes at most three bytes a call.
#[derive(Drop)]
struct Narrow {
    sink: MemSink,
}

impl Sink for Narrow {
    ghost written = { λ s. Some s.sink.written };

    ghost faults = { λ s. s.sink.faults };

    ghost spent = { λ s. s.sink.faults ≡ 2 ^ 64 - 1 };

    fn write(&mut self, piece: &[u8]) -> Result<usize, Failed> {
        let count = piece.len().min(3);
        self.sink.write(&piece[..count])
    }
}

// What is written of seven bytes, and how it ends, if the calls of these numbers fail.
fn written_with(
    rt: &HostRuntime,
    fails: List<u64>,
) -> Result<(Result<(), WriteFault>, Bytes), Fail> {
    let mut sink = Narrow {
        sink: MemSink::new(Bytes::new(rt.alloc()), fails),
    };
    let result = put_all(&mut sink, b"forensic".as_slice());
    Ok((result, Bytes::from_slice(rt.alloc(), sink.sink.written())?))
}

#[test]
fn a_short_write_goes_on_with_the_rest(rt: HostRuntime) -> Result<(), Fail> {
    let (result, written) = written_with(&rt, List::new(rt.alloc()))?;
    assert_eq!(rt; result, Ok(()));
    assert_eq!(rt; written.as_slice(), b"forensic".as_slice());
    Ok(())
}

#[test]
fn a_fault_says_how_much_was_written(rt: HostRuntime) -> Result<(), Fail> {
    for (call, done) in [(0u64, 0usize), (1, 3), (2, 6)] {
        let mut fails = List::new(rt.alloc());
        fails.push(call)?;
        let (result, written) = written_with(&rt, fails)?;
        assert_eq!(rt; result, Err(WriteFault { done }), "call {call}");
        assert_eq!(rt; written.as_slice().len(), done, "call {call}");
    }
    Ok(())
}

#[test]
fn a_source_gives_its_bytes_in_pieces_and_then_none(rt: HostRuntime) -> Result<(), Fail> {
    let alloc = rt.alloc();
    let mut fails = List::new(alloc);
    fails.push(1)?;
    let mut source = MemSource::new(Bytes::from_slice(alloc, b"audit".as_slice())?, fails);
    let mut buf = [0u8; 4];
    assert_eq!(rt; source.read(&mut buf), Ok(4));
    assert_eq!(rt; buf.as_slice(), b"audi".as_slice());
    assert_eq!(rt; source.read(&mut buf), Err(Failed));
    assert_eq!(rt; source.read(&mut buf), Ok(1));
    assert_eq!(rt; buf[0], b't');
    assert_eq!(rt; source.read(&mut buf), Ok(0));
    let mut clean = CleanSource::new(Bytes::from_slice(alloc, b"log".as_slice())?);
    assert_eq!(rt; clean.read(&mut buf), Ok(3));
    assert_eq!(rt; clean.read(&mut buf), Ok(0));
    Ok(())
}

// At most three bytes of a disk from a place on, and how many they are.
fn three_at<D: Disk>(disk: &mut D, at: u64) -> Result<([u8; 3], usize), Failed> {
    let mut buf = [0; 3];
    let count = disk.read_at(at, buf.as_mut_slice())?;
    Ok((buf, count))
}

#[test]
fn a_disk_is_written_over_and_past_its_end(rt: HostRuntime) -> Result<(), Fail> {
    let alloc = rt.alloc();
    let bytes = Bytes::from_slice(alloc, b"gate".as_slice())?;
    let mut disk = MemDisk::new(alloc, bytes, List::new(alloc));
    disk.write_at(3, b"her".as_slice())?;
    disk.write_at(0, b"f".as_slice())?;
    disk.sync()?;
    assert_eq!(rt; disk.bytes(), b"father".as_slice());
    assert_eq!(rt; disk.len()?, 6);
    assert_eq!(rt; three_at(&mut disk, 4)?, ([b'e', b'r', 0], 2));
    assert_eq!(rt; three_at(&mut disk, 6)?.1, 0);
    Ok(())
}

#[test]
fn a_disk_fails_the_calls_that_are_listed_and_changes_nothing(rt: HostRuntime) -> Result<(), Fail> {
    let alloc = rt.alloc();
    let mut fails = List::new(alloc);
    fails.push(1)?;
    let mut disk = MemDisk::new(alloc, Bytes::new(alloc), fails);
    disk.write_at(0, b"a".as_slice())?;
    assert!(rt; disk.write_at(0, b"b".as_slice()).is_err());
    assert_eq!(rt; disk.bytes(), b"a".as_slice());
    disk.sync()?;
    Ok(())
}

#[test]
fn a_stopped_disk_passes_the_calls_left_and_counts_the_others(rt: HostRuntime) -> Result<(), Fail> {
    let alloc = rt.alloc();
    let disk = MemDisk::new(alloc, Bytes::new(alloc), List::new(alloc));
    let mut disk = StopDisk {
        disk,
        left: 2,
        failed: 0,
    };
    disk.write_at(0, b"a".as_slice())?;
    assert_eq!(rt; disk.len()?, 1);
    assert!(rt; disk.sync().is_err());
    assert!(rt; three_at(&mut disk, 0).is_err());
    assert_eq!(rt; (disk.left, disk.failed), (0, 2));
    Ok(())
}
