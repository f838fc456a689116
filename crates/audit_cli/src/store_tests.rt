//! Runs over a store in memory. A log is taken in two runs, and then questions are answered over what the store has. The wanted
//! replies were worked out by hand, as those over a whole log.
use super::*;
use crate::tests::{FORK, NOTHING, REACHED, WRITE, calls, joined, words_of};
use flow_base::{Bytes, Limits};
use outside::{MemDisk, MemSink, MemSource};
use reach_model::Mode;
use std::test::Fail;
use table_salt::Salt;

// One run over a disk that begins with these bytes, some of whose calls fail: how it ends, what it writes, and the disk's bytes.
fn run_over(
    rt: &HostRuntime,
    words: &str,
    log: Bytes,
    asked: &[u8],
    disk: Bytes,
    fails: &[u64],
) -> Result<(Status, Bytes, Bytes), Fail> {
    let alloc = rt.alloc();
    let words = words_of(rt, words)?;
    let mut log = MemSource::new(log, calls(rt, &[])?);
    let mut questions = MemSource::new(Bytes::from_slice(alloc, asked)?, calls(rt, &[])?);
    let mut out = MemSink::new(Bytes::new(alloc), calls(rt, &[])?);
    let disk = MemDisk::new(alloc, disk, calls(rt, fails)?);
    let ended = audit_run(
        alloc,
        Salt::fixed(),
        &Limits::standard(),
        words.as_slice(),
        &mut log,
        &mut questions,
        &mut out,
        disk,
    );
    let left = Bytes::from_slice(alloc, ended.disk.bytes())?;
    Ok((ended.status, Bytes::from_slice(alloc, out.written())?, left))
}

const FIRST: &[u8] =
    b"{\"blank\":0,\"bytes\":140,\"events\":1,\"excess\":0,\"flows\":1,\"kept\":1,\"known\":2,\"late\":0,\"lines\":1,\"malformed\":0,\"malformed_lines\":[],\"other\":0,\"unmapped\":0,\"used\":1,\"waiting\":0}\n";

const BOTH: &[u8] =
    b"{\"blank\":0,\"bytes\":278,\"events\":2,\"excess\":0,\"flows\":2,\"kept\":2,\"known\":3,\"late\":0,\"lines\":2,\"malformed\":0,\"malformed_lines\":[],\"other\":0,\"unmapped\":0,\"used\":2,\"waiting\":0}\n";

// A query takes no log.
const NO_LOG: &[u8] =
    b"{\"error\":\"BadQuestion\"}\n{\"error\":\"BadQuestion\"}\n{\"back\":2,\"ids\":[0,1,2]}\n{\"end\":true}\n";

#[test]
fn a_store_grows_by_each_log_and_is_queried(rt: HostRuntime) -> Result<(), Fail> {
    for mode in ["plain", "continuous", "full"] {
        let words = format!(in rt.alloc(); "reduce {mode} log store")?;
        let empty = Bytes::new(rt.alloc());
        let (ended, written, disk) = run_over(
            &rt,
            words.as_str(),
            joined(&rt, &[FORK])?,
            b"",
            empty,
            &[],
        )?;
        assert_eq!(rt; ended, Status::Done, "{mode}");
        assert_eq!(rt; written.as_slice(), FIRST, "{mode}");
        let (ended, written, disk) = run_over(
            &rt,
            words.as_str(),
            joined(&rt, &[WRITE])?,
            b"",
            disk,
            &[],
        )?;
        assert_eq!(rt; ended, Status::Done, "{mode}");
        assert_eq!(rt; written.as_slice(), BOTH, "{mode}");
        let asked = b"take 9\nsettle\nback 2\nend\n".as_slice();
        let (ended, written, after) = run_over(
            &rt,
            "query store",
            Bytes::new(rt.alloc()),
            asked,
            Bytes::from_slice(rt.alloc(), disk.as_slice())?,
            &[],
        )?;
        assert_eq!(rt; ended, Status::Done, "{mode}");
        assert_eq!(rt; written.as_slice(), NO_LOG, "{mode}");
        assert_eq!(rt; after.as_slice(), disk.as_slice(), "{mode}");
    }
    Ok(())
}

#[test]
fn a_disk_that_is_no_such_store_is_refused(rt: HostRuntime) -> Result<(), Fail> {
    let empty = Bytes::new(rt.alloc());
    let (ended, _, plain) = run_over(
        &rt,
        "reduce plain log store",
        joined(&rt, &[FORK])?,
        b"",
        empty,
        &[],
    )?;
    assert_eq!(rt; ended, Status::Done);
    let wrong = Status::WrongMode {
        kept: Mode::Plain,
        asked: Mode::Full,
    };
    // no store at all, one without a batch, one of another mode, and a disk whose first call fails
    let rows = [
        (
            "query store",
            b"no store".as_slice(),
            [].as_slice(),
            Status::BadStore(0),
        ),
        (
            "reduce plain log store",
            b"no store".as_slice(),
            [].as_slice(),
            Status::BadStore(0),
        ),
        (
            "query store",
            b"".as_slice(),
            [].as_slice(),
            Status::BadStore(0),
        ),
        (
            "reduce full log store",
            plain.as_slice(),
            [].as_slice(),
            wrong,
        ),
        (
            "reduce plain log store",
            plain.as_slice(),
            [0u64].as_slice(),
            Status::StoreFault,
        ),
        (
            "query store",
            plain.as_slice(),
            [0u64].as_slice(),
            Status::StoreFault,
        ),
    ];
    for (words, bytes, fails, status) in rows {
        let disk = Bytes::from_slice(rt.alloc(), bytes)?;
        let (ended, written, left) = run_over(
            &rt,
            words,
            joined(&rt, &[WRITE])?,
            b"back 1\n",
            disk,
            fails,
        )?;
        assert_eq!(rt; ended, status, "{words}");
        assert_eq!(rt; written.as_slice(), NOTHING, "{words}");
        assert_eq!(rt; left.as_slice(), bytes, "{words}");
    }
    Ok(())
}

#[test]
fn a_run_that_its_disk_stops_is_resumed(rt: HostRuntime) -> Result<(), Fail> {
    let mut stopped = false;
    for call in 0..12u64 {
        let empty = Bytes::new(rt.alloc());
        let (ended, written, disk) = run_over(
            &rt,
            "reduce plain log store",
            joined(&rt, &[FORK, WRITE])?,
            b"",
            empty,
            &[call],
        )?;
        if ended != Status::Done {
            assert_eq!(rt; ended, Status::StoreFault, "{call}");
            assert_eq!(rt; written.as_slice(), NOTHING, "{call}");
            stopped = true;
        }
        // resumed, the run takes what the store doesn't have of the log
        let (ended, written, disk) = run_over(
            &rt,
            "reduce plain log store --resume",
            joined(&rt, &[FORK, WRITE])?,
            b"",
            disk,
            &[],
        )?;
        assert_eq!(rt; ended, Status::Done, "{call}");
        assert_eq!(rt; written.as_slice(), BOTH, "{call}");
        let (ended, written, _) = run_over(
            &rt,
            "query store",
            Bytes::new(rt.alloc()),
            b"back 2\n",
            disk,
            &[],
        )?;
        assert_eq!(rt; ended, Status::Done, "{call}");
        assert_eq!(rt; written.as_slice(), REACHED, "{call}");
    }
    assert!(rt; stopped);
    Ok(())
}

#[test]
fn each_call_of_a_query_fails_in_turn(rt: HostRuntime) -> Result<(), Fail> {
    let empty = Bytes::new(rt.alloc());
    let (ended, _, disk) = run_over(
        &rt,
        "reduce full log store",
        joined(&rt, &[FORK, WRITE])?,
        b"",
        empty,
        &[],
    )?;
    assert_eq!(rt; ended, Status::Done);
    let mut stopped = false;
    let mut answered = false;
    for call in 0..24u64 {
        let (ended, written, after) = run_over(
            &rt,
            "query store",
            Bytes::new(rt.alloc()),
            b"back 2\n",
            Bytes::from_slice(rt.alloc(), disk.as_slice())?,
            &[call],
        )?;
        if ended == Status::Done {
            assert_eq!(rt; written.as_slice(), REACHED, "{call}");
            answered = true;
        } else {
            assert_eq!(rt; ended, Status::StoreFault, "{call}");
            assert_eq!(rt; written.as_slice(), NOTHING, "{call}");
            stopped = true;
        }
        assert_eq!(rt; after.as_slice(), disk.as_slice(), "{call}");
    }
    assert!(rt; stopped && answered);
    Ok(())
}

#[test]
fn a_log_that_was_taken_in_part_goes_on(rt: HostRuntime) -> Result<(), Fail> {
    let words = "reduce plain log store --resume";
    let empty = Bytes::new(rt.alloc());
    // the store has taken nothing yet, and then the first line
    let (ended, written, disk) = run_over(&rt, words, joined(&rt, &[FORK])?, b"", empty, &[])?;
    assert_eq!(rt; ended, Status::Done);
    assert_eq!(rt; written.as_slice(), FIRST);
    let first = Bytes::from_slice(rt.alloc(), disk.as_slice())?;
    let (ended, written, _) = run_over(&rt, words, joined(&rt, &[FORK, WRITE])?, b"", disk, &[])?;
    assert_eq!(rt; ended, Status::Done);
    assert_eq!(rt; written.as_slice(), BOTH);
    // a log that has fewer bytes than were taken of it
    let before = Bytes::from_slice(rt.alloc(), first.as_slice())?;
    let (ended, written, after) = run_over(
        &rt,
        words,
        joined(&rt, &[b"no log"])?,
        b"",
        before,
        &[],
    )?;
    assert_eq!(rt; ended, Status::ShortLog { taken: 140, had: 6 });
    assert_eq!(rt; written.as_slice(), NOTHING);
    assert_eq!(rt; after.as_slice(), first.as_slice());
    Ok(())
}

// The first line is taken and settled, and then the second; what comes after `end` isn't answered.
const ASKED: &[u8] = b"take 140\nsettle\nstat\ntake 500\nsettle\nback 2\nend\nstat\n";

const TAKEN: &[u8] = b"{\"take\":140}\n{\"settle\":1}\n";

const THEN: &[u8] =
    b"{\"take\":138}\n{\"settle\":2}\n{\"back\":2,\"ids\":[0,1,2]}\n{\"end\":true}\n";

#[test]
fn a_watch_over_a_store_saves_what_it_takes(rt: HostRuntime) -> Result<(), Fail> {
    let empty = Bytes::new(rt.alloc());
    let (ended, written, disk) = run_over(
        &rt,
        "watch plain log store",
        joined(&rt, &[FORK, WRITE])?,
        ASKED,
        empty,
        &[],
    )?;
    assert_eq!(rt; ended, Status::Done);
    let mut wanted = Bytes::from_slice(rt.alloc(), TAKEN)?;
    wanted.append(FIRST)?;
    wanted.append(THEN)?;
    assert_eq!(rt; written.as_slice(), wanted.as_slice());
    let (ended, written, _) = run_over(
        &rt,
        "query store",
        Bytes::new(rt.alloc()),
        b"stat\n",
        disk,
        &[],
    )?;
    assert_eq!(rt; ended, Status::Done);
    assert_eq!(rt; written.as_slice(), BOTH);
    Ok(())
}

#[test]
fn a_watch_that_its_disk_stops_leaves_what_it_had_saved(rt: HostRuntime) -> Result<(), Fail> {
    let mut stopped = false;
    for call in 0..24u64 {
        let empty = Bytes::new(rt.alloc());
        let (ended, _, disk) = run_over(
            &rt,
            "watch plain log store",
            joined(&rt, &[FORK, WRITE])?,
            ASKED,
            empty,
            &[call],
        )?;
        if ended != Status::Done {
            assert_eq!(rt; ended, Status::StoreFault, "{call}");
            stopped = true;
        }
        // the store has nothing, the first line, settled, or all
        let (ended, written, _) = run_over(
            &rt,
            "query store",
            Bytes::new(rt.alloc()),
            b"stat\n",
            disk,
            &[],
        )?;
        if ended == Status::Done {
            let text = written.as_slice();
            assert!(rt; text == FIRST || text == BOTH, "{call}");
        } else {
            assert_eq!(rt; ended, Status::BadStore(0), "{call}");
        }
    }
    assert!(rt; stopped);
    Ok(())
}
