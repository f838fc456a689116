//! Runs over objects in memory whose calls fail: one read or write after the other, and calls that a run doesn't make.
use super::*;
use crate::tests::{FEED, FORK, Fails, NOTHING, REACHED, WRITE, joined, run_with};
use flow_base::{Bytes, Limits};
use std::test::Fail;

#[test]
fn a_failing_device_is_named_and_nothing_false_is_written(rt: HostRuntime) -> Result<(), Fail> {
    let none = [].as_slice();
    let first = [0u64].as_slice();
    let second = [1u64].as_slice();
    let taken = b"{\"take\":279}\n".as_slice();
    let rows = [
        (
            "back 2",
            Fails {
                log: first,
                questions: none,
                out: none,
            },
            Status::ReadFault,
            NOTHING,
        ),
        (
            "back 2",
            Fails {
                log: second,
                questions: none,
                out: none,
            },
            Status::ReadFault,
            NOTHING,
        ),
        (
            "back 2",
            Fails {
                log: none,
                questions: none,
                out: first,
            },
            Status::WriteFault,
            NOTHING,
        ),
        (
            "back 2",
            Fails {
                log: none,
                questions: first,
                out: second,
            },
            Status::Done,
            REACHED,
        ),
        (
            "watch plain log",
            Fails {
                log: first,
                questions: none,
                out: none,
            },
            Status::ReadFault,
            NOTHING,
        ),
        (
            "watch plain log",
            Fails {
                log: none,
                questions: first,
                out: none,
            },
            Status::ReadFault,
            NOTHING,
        ),
        (
            "watch plain log",
            Fails {
                log: none,
                questions: second,
                out: none,
            },
            Status::ReadFault,
            taken,
        ),
        (
            "watch plain log",
            Fails {
                log: none,
                questions: none,
                out: first,
            },
            Status::WriteFault,
            NOTHING,
        ),
    ];
    for (words, fails, status, text) in rows {
        let log = joined(&rt, &[FORK, WRITE, FEED])?;
        let asked = Bytes::from_slice(rt.alloc(), b"take 999\n".as_slice())?;
        let (ended, written) = run_with(&rt, &Limits::standard(), words, log, asked, fails)?;
        assert_eq!(rt; ended, status, "{words}");
        assert_eq!(rt; written.as_slice(), text, "{words}");
    }
    Ok(())
}

// What is asked about the two flows, and what is answered.
const FLOWS_ASKED: &[u8] = b"take 1000\nsettle\nback 2\nshow 0\nshow 2\n";

const FLOWS_TAKEN: &[u8] = b"{\"take\":279}\n";

const FLOWS_SETTLED: &[u8] = b"{\"settle\":2}\n";

const PROCESS_SHOWN: &[u8] = b"{\"is\":\"process 100 0\",\"names\":[\"/p\"],\"show\":0}\n";

const LOST_SHOWN: &[u8] = b"{\"is\":\"lost 101 0 1\",\"names\":[],\"show\":2}\n";

const FLOWS_SAID: &[&[u8]] = &[
    FLOWS_TAKEN,
    FLOWS_SETTLED,
    REACHED,
    PROCESS_SHOWN,
    LOST_SHOWN,
];

// Asks about the two flows while some calls fail: how the run ends, and what it has written then.
fn flows_with(rt: &HostRuntime, fails: Fails<'_>) -> Result<(Status, Bytes), Fail> {
    let log = joined(rt, &[FORK, WRITE, FEED])?;
    let asked = Bytes::from_slice(rt.alloc(), FLOWS_ASKED)?;
    run_with(
        rt,
        &Limits::standard(),
        "watch plain log",
        log,
        asked,
        fails,
    )
}

#[test]
fn each_read_of_a_log_fails_in_turn(rt: HostRuntime) -> Result<(), Fail> {
    for call in 0..2u64 {
        let fails = Fails {
            log: &[call],
            questions: &[],
            out: &[],
        };
        let (ended, written) = flows_with(&rt, fails)?;
        assert_eq!(rt; ended, Status::ReadFault, "{call}");
        assert_eq!(rt; written.as_slice(), NOTHING, "{call}");
    }
    Ok(())
}

#[test]
fn each_read_of_the_questions_fails_in_turn(rt: HostRuntime) -> Result<(), Fail> {
    let fails = Fails {
        log: &[],
        questions: &[0],
        out: &[],
    };
    let (ended, written) = flows_with(&rt, fails)?;
    assert_eq!(rt; ended, Status::ReadFault);
    assert_eq!(rt; written.as_slice(), NOTHING);
    // what was asked before the second read is answered
    let fails = Fails {
        log: &[],
        questions: &[1],
        out: &[],
    };
    let (ended, written) = flows_with(&rt, fails)?;
    assert_eq!(rt; ended, Status::ReadFault);
    assert_eq!(rt; written.as_slice(), joined(&rt, FLOWS_SAID)?.as_slice());
    Ok(())
}

#[test]
fn each_write_of_a_dialogue_fails_in_turn(rt: HostRuntime) -> Result<(), Fail> {
    let mut said = Bytes::new(rt.alloc());
    let mut call: u64 = 0;
    for reply in FLOWS_SAID {
        let fails = Fails {
            log: &[],
            questions: &[],
            out: &[call],
        };
        let (ended, written) = flows_with(&rt, fails)?;
        assert_eq!(rt; ended, Status::WriteFault, "{call}");
        assert_eq!(rt; written.as_slice(), said.as_slice(), "{call}");
        said.append(reply)?;
        call = call.saturating_add(1);
    }
    Ok(())
}

#[test]
fn a_dialogue_makes_no_more_calls(rt: HostRuntime) -> Result<(), Fail> {
    let fails = Fails {
        log: &[2],
        questions: &[2],
        out: &[5],
    };
    let (ended, written) = flows_with(&rt, fails)?;
    assert_eq!(rt; ended, Status::Done);
    assert_eq!(rt; written.as_slice(), joined(&rt, FLOWS_SAID)?.as_slice());
    Ok(())
}

#[test]
fn a_log_that_is_not_asked_for_is_not_read(rt: HostRuntime) -> Result<(), Fail> {
    let fails = Fails {
        log: &[0],
        questions: &[],
        out: &[],
    };
    let log = joined(&rt, &[FORK])?;
    let asked = Bytes::from_slice(rt.alloc(), b"take 0\nend\n".as_slice())?;
    let (ended, written) = run_with(
        &rt,
        &Limits::standard(),
        "watch plain log",
        log,
        asked,
        fails,
    )?;
    assert_eq!(rt; ended, Status::Done);
    assert_eq!(rt;
        written.as_slice(),
        b"{\"take\":0}\n{\"end\":true}\n".as_slice()
    );
    Ok(())
}
