//! Runs over objects in memory: what is written, and how the run ends.
use super::*;
use flow_base::{Bytes, Full, Limit, Limits, List};
use outside::{MemDisk, MemSink, MemSource};
use reach_model::Mode;
use std::test::Fail;
use table_salt::Salt;

// Process 100 forks 101, which writes to its descriptor 1: lines of 139 and 138 bytes, the second without its line feed.
pub const FORK: &[u8] =
    b"type=SYSCALL msg=audit(1.000:1): arch=c000003e syscall=57 success=yes exit=101 a0=0 a1=0 a2=0 a3=0 items=0 ppid=1 pid=100 comm=\"p\" exe=\"/p\"\n";

pub const WRITE: &[u8] =
    b"type=SYSCALL msg=audit(1.001:2): arch=c000003e syscall=1 success=yes exit=5 a0=1 a1=0 a2=5 a3=0 items=0 ppid=100 pid=101 comm=\"p\" exe=\"/p\"";

pub const FEED: &[u8] = b"\n";

// The end of the first event.
const END: &[u8] = b"type=EOE msg=audit(1.000:1): \n";

// Two more forks by process 100, two seconds after the first one.
const LATER: &[u8] =
    b"type=SYSCALL msg=audit(3.000:2): arch=c000003e syscall=57 success=yes exit=102 a0=0 a1=0 a2=0 a3=0 items=0 ppid=1 pid=100 comm=\"p\" exe=\"/p\"\n";

const LAST: &[u8] =
    b"type=SYSCALL msg=audit(3.001:3): arch=c000003e syscall=57 success=yes exit=103 a0=0 a1=0 a2=0 a3=0 items=0 ppid=1 pid=100 comm=\"p\" exe=\"/p\"\n";

// A fork of 101 with what a collector adds, one of 102 with the name of its host, and a name without its closing quote.
const ENRICHED: &[u8] =
    b"type=SYSCALL msg=audit(1.000:1): arch=c000003e syscall=57 success=yes exit=101 a0=0 a1=0 a2=0 a3=0 items=0 ppid=1 pid=100 comm=\"p\" exe=\"/p\"\x1dARCH=x86_64 SYSCALL=fork\n";

const FROM_A_HOST: &[u8] =
    b"node=web1 type=SYSCALL msg=audit(1.001:2): arch=c000003e syscall=57 success=yes exit=102 a0=0 a1=0 a2=0 a3=0 items=0 ppid=1 pid=100 comm=\"p\" exe=\"/p\"\n";

const UNCLOSED: &[u8] =
    b"type=PATH msg=audit(1.001:2): item=0 name=\"/f7 inode=7 dev=08:01 nametype=NORMAL\n";

const FILE: &[u8] =
    b"type=PATH msg=audit(1.000:1): item=0 name=\"/f7\" inode=7 dev=08:01 nametype=NORMAL\n";

// A change of a file whose name is coded in hex digits, and a name of an odd number of them.
const CODED: &[&[u8]] = &[
    b"type=SYSCALL msg=audit(1.000:1): arch=c000003e syscall=90 success=yes exit=0 a0=0 a1=0 a2=0 a3=0 items=0 ppid=1 pid=100 comm=\"p\" exe=\"/p\"\n",
    b"type=PATH msg=audit(1.000:1): item=0 name=2F746D702F6120622E747874 inode=7 dev=08:01 nametype=NORMAL\n",
    b"type=PATH msg=audit(1.000:1): item=1 name=2F7 nametype=NORMAL\n",
    b"type=EOE msg=audit(1.000:1): \n",
];

// Process 100 opens file 7, copies its descriptor, executes file 8, reads its descriptors 3 and 9, and connects and writes to
// an address.
const DESCRIPTORS: &[&[u8]] = &[
    b"type=SYSCALL msg=audit(1.000:1): arch=c000003e syscall=257 success=yes exit=3 a0=ffffff9c a1=0 a2=80000 a3=0 items=0 ppid=1 pid=100 comm=\"p\" exe=\"/p\"\n",
    b"type=PATH msg=audit(1.000:1): item=0 name=\"/f7\" inode=7 dev=08:01 nametype=NORMAL\n",
    b"type=SYSCALL msg=audit(1.001:2): arch=c000003e syscall=33 success=yes exit=9 a0=3 a1=9 a2=0 a3=0 items=0 ppid=1 pid=100 comm=\"p\" exe=\"/p\"\n",
    b"type=SYSCALL msg=audit(1.002:3): arch=c000003e syscall=59 success=yes exit=0 a0=0 a1=0 a2=0 a3=0 items=0 ppid=1 pid=100 comm=\"p\" exe=\"/p\"\n",
    b"type=PATH msg=audit(1.002:3): item=0 name=\"/f8\" inode=8 dev=08:01 nametype=NORMAL\n",
    b"type=SYSCALL msg=audit(1.003:4): arch=c000003e syscall=0 success=yes exit=1 a0=3 a1=0 a2=1 a3=0 items=0 ppid=1 pid=100 comm=\"p\" exe=\"/p\"\n",
    b"type=SYSCALL msg=audit(1.004:5): arch=c000003e syscall=0 success=yes exit=1 a0=9 a1=0 a2=1 a3=0 items=0 ppid=1 pid=100 comm=\"p\" exe=\"/p\"\n",
    b"type=SYSCALL msg=audit(1.005:6): arch=c000003e syscall=41 success=yes exit=4 a0=2 a1=1 a2=0 a3=0 items=0 ppid=1 pid=100 comm=\"p\" exe=\"/p\"\n",
    b"type=SYSCALL msg=audit(1.006:7): arch=c000003e syscall=42 success=no exit=-115 a0=4 a1=0 a2=10 a3=0 items=0 ppid=1 pid=100 comm=\"p\" exe=\"/p\"\n",
    b"type=SOCKADDR msg=audit(1.006:7): saddr=020001BBC00002010000000000000000\n",
    b"type=SYSCALL msg=audit(1.007:8): arch=c000003e syscall=1 success=yes exit=1 a0=4 a1=0 a2=1 a3=0 items=0 ppid=1 pid=100 comm=\"p\" exe=\"/p\"\n",
];

const UNKNOWN: &[u8] = b"{\"error\":\"Unknown\"}\n";

pub const REACHED: &[u8] = b"{\"back\":2,\"ids\":[0,1,2]}\n";

pub const NOTHING: &[u8] = b"";

// The status at a limit of this number.
fn full(limit: Limit, number: u64) -> Status {
    Status::Full(Full { limit, number })
}

// The limits of the program, with these in place of four of them.
fn limits(input: u64, entities: u32, records: usize, question: usize) -> Limits {
    let standard = Limits::standard();
    Limits {
        line: standard.line,
        groups: standard.groups,
        text: standard.text,
        records: records.min(standard.records).max(1),
        input: input.min(standard.input),
        entities: entities.min(standard.entities),
        flows: standard.flows,
        payload: standard.payload,
        store: standard.store,
        batch: standard.batch,
        question: question.min(standard.question),
        shown: standard.shown,
        names: standard.names,
        path: standard.path,
    }
}

// The words of a line, parted by spaces.
pub fn words_of(rt: &HostRuntime, line: &str) -> Result<Vec<String>, Fail> {
    let mut words = Vec::new(rt.alloc());
    for word in line.split_whitespace() {
        words.push(String::from_str(rt.alloc(), word)?)?;
    }
    Ok(words)
}

// These texts, one after the other.
pub fn joined(rt: &HostRuntime, parts: &[&[u8]]) -> Result<Bytes, Fail> {
    let mut bytes = Bytes::new(rt.alloc());
    for part in parts {
        bytes.append(part)?;
    }
    Ok(bytes)
}

// The numbers of calls that fail.
pub fn calls(rt: &HostRuntime, numbers: &[u64]) -> Result<List<u64>, Fail> {
    let mut list = List::new(rt.alloc());
    for number in numbers {
        list.push(*number)?;
    }
    Ok(list)
}

// The calls that fail, by their numbers.
#[derive(Clone, Copy)]
pub struct Fails<'a> {
    pub log: &'a [u64],
    pub questions: &'a [u64],
    pub out: &'a [u64],
}

// How a run ends, and what it writes, if these calls fail.
pub fn run_with(
    rt: &HostRuntime,
    limits: &Limits,
    words: &str,
    log: Bytes,
    questions: Bytes,
    fails: Fails<'_>,
) -> Result<(Status, Bytes), Fail> {
    let words = words_of(rt, words)?;
    let mut log = MemSource::new(log, calls(rt, fails.log)?);
    let mut questions = MemSource::new(questions, calls(rt, fails.questions)?);
    let mut out = MemSink::new(Bytes::new(rt.alloc()), calls(rt, fails.out)?);
    let disk = MemDisk::new(rt.alloc(), Bytes::new(rt.alloc()), calls(rt, &[0])?);
    let ended = audit_run(
        rt.alloc(),
        Salt::fixed(),
        limits,
        words.as_slice(),
        &mut log,
        &mut questions,
        &mut out,
        disk,
    );
    Ok((ended.status, Bytes::from_slice(rt.alloc(), out.written())?))
}

// How a run ends, and what it writes.
fn run(
    rt: &HostRuntime,
    limits: &Limits,
    words: &str,
    log: Bytes,
    questions: Bytes,
) -> Result<(Status, Bytes), Fail> {
    let none = Fails {
        log: &[],
        questions: &[],
        out: &[],
    };
    run_with(rt, limits, words, log, questions, none)
}

#[test]
fn back_is_answered_over_the_whole_log(rt: HostRuntime) -> Result<(), Fail> {
    let rows = [
        (
            "back 2",
            [FORK, WRITE, FEED].as_slice(),
            Status::Done,
            REACHED,
        ),
        (
            "back 0000000000002",
            [FORK, WRITE, FEED].as_slice(),
            Status::Done,
            REACHED,
        ),
        (
            "back 3",
            [FORK, WRITE, FEED].as_slice(),
            Status::Done,
            UNKNOWN,
        ),
        ("back 0", [].as_slice(), Status::Done, UNKNOWN),
        // the last line has no line feed
        ("back 2", [FORK, WRITE].as_slice(), Status::Done, REACHED),
        (
            "back x",
            [FORK, WRITE, FEED].as_slice(),
            Status::BadWords,
            NOTHING,
        ),
        (
            "back 4294967296",
            [FORK].as_slice(),
            Status::BadWords,
            NOTHING,
        ),
        ("back", [FORK].as_slice(), Status::BadWords, NOTHING),
        ("back 2 2", [FORK].as_slice(), Status::BadWords, NOTHING),
        ("watch", [FORK].as_slice(), Status::BadWords, NOTHING),
        ("watch plain", [FORK].as_slice(), Status::BadWords, NOTHING),
        (
            "watch sources log",
            [FORK].as_slice(),
            Status::BadWords,
            NOTHING,
        ),
        (
            "watch Plain log",
            [FORK].as_slice(),
            Status::BadWords,
            NOTHING,
        ),
        ("watch full", [FORK].as_slice(), Status::BadWords, NOTHING),
        (
            "watch plain log store x",
            [FORK].as_slice(),
            Status::BadWords,
            NOTHING,
        ),
    ];
    for (words, lines, status, text) in rows {
        let log = joined(&rt, lines)?;
        let (ended, written) = run(&rt, &Limits::standard(), words, log, Bytes::new(rt.alloc()))?;
        assert_eq!(rt; ended, status, "{words}");
        assert_eq!(rt; written.as_slice(), text, "{words}");
    }
    Ok(())
}

#[test]
fn questions_are_answered_at_their_moment(rt: HostRuntime) -> Result<(), Fail> {
    let rows = [
        (
            [].as_slice(),
            b"stat\nend\n".as_slice(),
            b"{\"blank\":0,\"bytes\":0,\"events\":0,\"excess\":0,\"flows\":0,\"kept\":0,\"known\":0,\"late\":0,\"lines\":0,\"malformed\":0,\"malformed_lines\":[],\"other\":0,\"unmapped\":0,\"used\":0,\"waiting\":0}\n{\"end\":true}\n".as_slice(),
        ),
        (
            [FORK, WRITE, FEED].as_slice(),
            b"take 1000\nsettle\nback 2\n".as_slice(),
            b"{\"take\":279}\n{\"settle\":2}\n{\"back\":2,\"ids\":[0,1,2]}\n".as_slice(),
        ),
        // the last question has no line feed, and that of the log neither
        (
            [FORK, WRITE].as_slice(),
            b"take 278\nsettle\nback 2".as_slice(),
            b"{\"take\":278}\n{\"settle\":2}\n{\"back\":2,\"ids\":[0,1,2]}\n".as_slice(),
        ),
        (
            [ENRICHED, FROM_A_HOST, UNCLOSED].as_slice(),
            b"take 1000\nsettle\nstat\n".as_slice(),
            b"{\"take\":396}\n{\"settle\":2}\n{\"blank\":0,\"bytes\":396,\"events\":2,\"excess\":0,\"flows\":2,\"kept\":2,\"known\":3,\"late\":0,\"lines\":3,\"malformed\":1,\"malformed_lines\":[[3,5]],\"other\":0,\"unmapped\":0,\"used\":2,\"waiting\":0}\n".as_slice(),
        ),
        (
            [FORK, LATER, LAST].as_slice(),
            b"take 280\nback 0\ntake 140\nback 1\nback 2\nsettle\nback 2\n".as_slice(),
            b"{\"take\":280}\n{\"error\":\"Unknown\"}\n{\"take\":140}\n{\"back\":1,\"ids\":[0,1]}\n{\"error\":\"Unknown\"}\n{\"settle\":3}\n{\"back\":2,\"ids\":[0,2]}\n".as_slice(),
        ),
        // what isn't a question, and nothing after `end`
        (
            [FORK, WRITE, FEED].as_slice(),
            b"back 1\nback x\n\ntake 999\nsettle\nback 1\nback 3\nend\ntake 1\nback 1\n".as_slice(),
            b"{\"error\":\"Unknown\"}\n{\"error\":\"BadQuestion\"}\n{\"error\":\"BadQuestion\"}\n{\"take\":279}\n{\"settle\":2}\n{\"back\":1,\"ids\":[0,1]}\n{\"error\":\"Unknown\"}\n{\"end\":true}\n".as_slice(),
        ),
        ([FORK].as_slice(), b"".as_slice(), NOTHING),
    ];
    for (lines, asked, text) in rows {
        let log = joined(&rt, lines)?;
        let asked = Bytes::from_slice(rt.alloc(), asked)?;
        let (ended, written) = run(&rt, &Limits::standard(), "watch plain log", log, asked)?;
        assert_eq!(rt; ended, Status::Done);
        assert_eq!(rt; written.as_slice(), text);
    }
    Ok(())
}

#[test]
fn objects_are_found_and_shown_and_paths_are_named(rt: HostRuntime) -> Result<(), Fail> {
    let rows = [
        (
            [FORK, WRITE, FEED].as_slice(),
            b"show 0\nshow 2\n".as_slice(),
            b"{\"is\":\"process 100 0\",\"names\":[\"/p\"],\"show\":0}\n{\"is\":\"lost 101 0 1\",\"names\":[],\"show\":2}\n".as_slice(),
        ),
        (
            CODED,
            b"find /tmp/a b.txt\n".as_slice(),
            b"{\"find\":\"/tmp/a b.txt\",\"ids\":[1]}\n".as_slice(),
        ),
        (
            DESCRIPTORS,
            b"back 4\nshow 2\nshow 3\nshow 4\nwhy 0 4\nwhy 4 0\nwhy 2 4 1.006\n".as_slice(),
            b"{\"back\":4,\"ids\":[0,1,2,3,4]}\n{\"is\":\"lost 100 0 3\",\"names\":[],\"show\":2}\n{\"is\":\"file 08:01 7 0\",\"names\":[\"/f7\"],\"show\":3}\n{\"is\":\"address 192.0.2.1:443\",\"names\":[\"192.0.2.1:443\"],\"show\":4}\n{\"from\":0,\"path\":[{\"at\":\"1.002\",\"from\":0,\"how\":\"exec\",\"serial\":3,\"to\":1},{\"at\":\"1.007\",\"from\":1,\"how\":\"write\",\"serial\":8,\"to\":4}],\"to\":4}\n{\"from\":4,\"path\":null,\"to\":0}\n{\"from\":2,\"path\":null,\"to\":4}\n".as_slice(),
        ),
    ];
    for (lines, asked, text) in rows {
        let log = joined(&rt, lines)?;
        let asked = joined(&rt, &[b"take 5000\nsettle\n".as_slice(), asked])?;
        let (ended, written) = run(&rt, &Limits::standard(), "watch plain log", log, asked)?;
        assert_eq!(rt; ended, Status::Done);
        assert!(rt; written.as_slice().ends_with(text));
    }
    Ok(())
}

// An event: a process calls chmod (90) or exec (59) with a file. Its second is its serial number too.
fn file_event(
    rt: &HostRuntime,
    call: u32,
    process: u32,
    file: u32,
    second: u32,
) -> Result<Bytes, Fail> {
    let head = format!(in rt.alloc();
        "type=SYSCALL msg=audit({second}.000:{second}): arch=c000003e syscall={call} success=yes exit=0 a0=0 a1=0 a2=0 a3=0 items=0 ppid=1 pid={process} comm=\"p\" exe=\"/p\"\n"
    )?;
    let path = format!(in rt.alloc();
        "type=PATH msg=audit({second}.000:{second}): item=0 name=\"/f{file}\" inode={file} dev=08:01 nametype=NORMAL\n"
    )?;
    let end = format!(in rt.alloc(); "type=EOE msg=audit({second}.000:{second}): \n")?;
    joined(rt, &[head.as_bytes(), path.as_bytes(), end.as_bytes()])
}

// A log of such events.
fn file_events(rt: &HostRuntime, events: &[(u32, u32, u32, u32)]) -> Result<Bytes, Fail> {
    let mut log = Bytes::new(rt.alloc());
    for (call, process, file, second) in events {
        log.append(file_event(rt, *call, *process, *file, *second)?.as_slice())?;
    }
    Ok(log)
}

#[test]
fn a_mode_answers_by_what_it_keeps(rt: HostRuntime) -> Result<(), Fail> {
    // two processes write a file, and the first one again
    let repeated = [
        (90u32, 100u32, 7u32, 1u32),
        (90, 200, 7, 2),
        (90, 100, 7, 3),
    ]
    .as_slice();
    // between its writes the process reads another file
    let between = [
        (90u32, 100u32, 7u32, 1u32),
        (59, 100, 8, 2),
        (90, 100, 7, 3),
    ]
    .as_slice();
    let rows = [
        (
            "watch plain log",
            repeated,
            b"take 1000\nfore 0 2.000\nback 1 1.000\nstat\n".as_slice(),
            b"{\"take\":750}\n{\"fore\":0,\"ids\":[0,1]}\n{\"back\":1,\"ids\":[0,1]}\n{\"blank\":0,\"bytes\":750,\"events\":3,\"excess\":0,\"flows\":3,\"kept\":3,\"known\":3,\"late\":0,\"lines\":9,\"malformed\":0,\"malformed_lines\":[],\"other\":0,\"unmapped\":0,\"used\":9,\"waiting\":0}\n".as_slice(),
        ),
        (
            "watch continuous log",
            repeated,
            b"take 1000\nfore 0 2.000\nback 1 1.000\nstat\n".as_slice(),
            b"{\"take\":750}\n{\"fore\":0,\"ids\":[0,1]}\n{\"back\":1,\"ids\":[0,1]}\n{\"blank\":0,\"bytes\":750,\"events\":3,\"excess\":0,\"flows\":3,\"kept\":2,\"known\":3,\"late\":0,\"lines\":9,\"malformed\":0,\"malformed_lines\":[],\"other\":0,\"unmapped\":0,\"used\":9,\"waiting\":0}\n".as_slice(),
        ),
        (
            "watch continuous log",
            between,
            b"take 1000\nback 1\nback 1 2.000\nstat\n".as_slice(),
            b"{\"take\":750}\n{\"back\":1,\"ids\":[0,1,2]}\n{\"back\":1,\"ids\":[0,1]}\n{\"blank\":0,\"bytes\":750,\"events\":3,\"excess\":0,\"flows\":3,\"kept\":3,\"known\":3,\"late\":0,\"lines\":9,\"malformed\":0,\"malformed_lines\":[],\"other\":0,\"unmapped\":0,\"used\":9,\"waiting\":0}\n".as_slice(),
        ),
        // full mode keeps the first of two equal flows, and so can't answer forward from the middle
        (
            "watch full log",
            repeated,
            b"take 1000\nfore 0 2.000\nfore 0\nfore 0 1.000\nback 1 1.000\nback 1\nfore 3\nstat\n".as_slice(),
            b"{\"take\":750}\n{\"error\":\"NotKept\"}\n{\"fore\":0,\"ids\":[0,1]}\n{\"fore\":0,\"ids\":[0,1]}\n{\"back\":1,\"ids\":[0,1]}\n{\"back\":1,\"ids\":[0,1,2]}\n{\"error\":\"Unknown\"}\n{\"blank\":0,\"bytes\":750,\"events\":3,\"excess\":0,\"flows\":3,\"kept\":2,\"known\":3,\"late\":0,\"lines\":9,\"malformed\":0,\"malformed_lines\":[],\"other\":0,\"unmapped\":0,\"used\":9,\"waiting\":0}\n".as_slice(),
        ),
    ];
    for (words, events, asked, text) in rows {
        let log = file_events(&rt, events)?;
        let asked = Bytes::from_slice(rt.alloc(), asked)?;
        let (ended, written) = run(&rt, &Limits::standard(), words, log, asked)?;
        assert_eq!(rt; ended, Status::Done, "{words}");
        assert_eq!(rt; written.as_slice(), text, "{words}");
    }
    Ok(())
}

#[test]
fn source_mode_answers_by_sources(rt: HostRuntime) -> Result<(), Fail> {
    // A process begins another one, and both write a file: what reaches the file is known by the first write.
    let mut log = joined(&rt, &[FORK, END])?;
    log.append(file_event(&rt, 90, 100, 7, 2)?.as_slice())?;
    log.append(file_event(&rt, 90, 101, 7, 3)?.as_slice())?;
    let asked = b"take 1000\nback 2\nfore 1\nfore 0\nback 3\nstat\n".as_slice();
    let asked = Bytes::from_slice(rt.alloc(), asked)?;
    let (ended, written) = run(&rt, &Limits::standard(), "watch source log", log, asked)?;
    assert_eq!(rt; ended, Status::Done);
    assert_eq!(rt;
        written.as_slice(),
        b"{\"take\":670}\n{\"back\":2,\"sources\":[0]}\n{\"error\":\"NotKept\"}\n{\"fore\":0,\"ids\":[0,1,2]}\n{\"error\":\"Unknown\"}\n{\"blank\":0,\"bytes\":670,\"events\":3,\"excess\":0,\"flows\":3,\"kept\":2,\"known\":3,\"late\":0,\"lines\":8,\"malformed\":0,\"malformed_lines\":[],\"other\":0,\"unmapped\":0,\"used\":8,\"waiting\":0}\n".as_slice()
    );
    Ok(())
}

#[test]
fn a_log_may_be_cut_at_every_byte(rt: HostRuntime) -> Result<(), Fail> {
    let mut asked = Bytes::new(rt.alloc());
    let mut text = Bytes::new(rt.alloc());
    for _ in 0..279 {
        asked.append(b"take 1\n".as_slice())?;
        text.append(b"{\"take\":1}\n".as_slice())?;
    }
    asked.append(b"take 1\nsettle\nback 2\n".as_slice())?;
    text.append(b"{\"take\":0}\n{\"settle\":2}\n{\"back\":2,\"ids\":[0,1,2]}\n".as_slice())?;
    let log = joined(&rt, &[FORK, WRITE, FEED])?;
    let (ended, written) = run(&rt, &Limits::standard(), "watch plain log", log, asked)?;
    assert_eq!(rt; ended, Status::Done);
    assert_eq!(rt; written.as_slice(), text.as_slice());
    Ok(())
}

#[test]
fn the_longest_line_is_taken_and_a_longer_one_is_malformed(rt: HostRuntime) -> Result<(), Fail> {
    let mut log = Bytes::new(rt.alloc());
    for length in [65_536usize, 65_537] {
        log.append(b"type=USER_MSG msg=audit(1.000:1): ".as_slice())?;
        for _ in 34..length {
            log.append(b"x".as_slice())?;
        }
        log.append(FEED)?;
    }
    let asked = Bytes::from_slice(rt.alloc(), b"take 200000\nstat\n".as_slice())?;
    let (ended, written) = run(&rt, &Limits::standard(), "watch plain log", log, asked)?;
    assert_eq!(rt; ended, Status::Done);
    assert_eq!(rt;
        written.as_slice(),
        b"{\"take\":131075}\n{\"blank\":0,\"bytes\":131075,\"events\":0,\"excess\":0,\"flows\":0,\"kept\":0,\"known\":0,\"late\":0,\"lines\":2,\"malformed\":1,\"malformed_lines\":[[2,1]],\"other\":1,\"unmapped\":0,\"used\":0,\"waiting\":0}\n".as_slice()
    );
    Ok(())
}

// A log of the tables of limits: of no lines, of two events with a flow each, and of one event with three records.
#[derive(Clone, Copy)]
enum Log {
    Empty,
    TwoFlows,
    OneEvent,
}

fn bytes_of(rt: &HostRuntime, log: Log) -> Result<Bytes, Fail> {
    match log {
        Log::Empty => Ok(Bytes::new(rt.alloc())),
        Log::TwoFlows => joined(rt, &[FORK, WRITE, FEED]),
        Log::OneEvent => joined(rt, &[FILE, FILE, FILE]),
    }
}

#[test]
fn a_limit_is_kept_on_both_sides(rt: HostRuntime) -> Result<(), Fail> {
    let rows = [
        // the whole log, and a byte more than may come
        (
            (279u64, 3u32, 9usize, 99usize),
            "back 2",
            Log::TwoFlows,
            b"".as_slice(),
            Status::Done,
            REACHED,
        ),
        (
            (278u64, 3u32, 9usize, 99usize),
            "back 2",
            Log::TwoFlows,
            b"".as_slice(),
            full(Limit::Input, 278),
            NOTHING,
        ),
        // the questions are counted apart from the log, and the lines before the limit are answered
        (
            (279u64, 3u32, 9usize, 99usize),
            "watch plain log",
            Log::TwoFlows,
            b"take 999\n".as_slice(),
            Status::Done,
            b"{\"take\":279}\n".as_slice(),
        ),
        (
            (13u64, 3u32, 9usize, 99usize),
            "watch plain log",
            Log::Empty,
            b"take 0\nbogus\n".as_slice(),
            Status::Done,
            b"{\"take\":0}\n{\"error\":\"BadQuestion\"}\n".as_slice(),
        ),
        (
            (12u64, 3u32, 9usize, 99usize),
            "watch plain log",
            Log::Empty,
            b"take 0\nbogus\n".as_slice(),
            full(Limit::Input, 12),
            b"{\"take\":0}\n".as_slice(),
        ),
        // `end` within the limit leaves nothing past it
        (
            (4u64, 3u32, 9usize, 99usize),
            "watch plain log",
            Log::Empty,
            b"end\ntake 0\n".as_slice(),
            Status::Done,
            b"{\"end\":true}\n".as_slice(),
        ),
        // the third object comes with the second event
        (
            (999u64, 2u32, 9usize, 99usize),
            "back 2",
            Log::TwoFlows,
            b"".as_slice(),
            full(Limit::Entities, 2),
            NOTHING,
        ),
        (
            (999u64, 2u32, 9usize, 99usize),
            "watch plain log",
            Log::TwoFlows,
            b"take 999\nsettle\nback 0\n".as_slice(),
            full(Limit::Entities, 2),
            b"{\"take\":279}\n".as_slice(),
        ),
        // records in excess
        (
            (999u64, 2u32, 2usize, 99usize),
            "watch plain log",
            Log::OneEvent,
            b"take 999\nstat\n".as_slice(),
            Status::Done,
            b"{\"take\":246}\n{\"blank\":0,\"bytes\":246,\"events\":0,\"excess\":1,\"flows\":0,\"kept\":0,\"known\":0,\"late\":0,\"lines\":3,\"malformed\":0,\"malformed_lines\":[],\"other\":0,\"unmapped\":0,\"used\":3,\"waiting\":1}\n".as_slice(),
        ),
        // a question of as many bytes as it may have, and a longer one
        (
            (999u64, 2u32, 9usize, 6usize),
            "watch plain log",
            Log::Empty,
            b"take 0\ntake 00\n".as_slice(),
            Status::Done,
            b"{\"take\":0}\n{\"error\":\"BadQuestion\"}\n".as_slice(),
        ),
    ];
    for (most, words, log, asked, status, text) in rows {
        let limits = limits(most.0, most.1, most.2, most.3);
        let log = bytes_of(&rt, log)?;
        let asked = Bytes::from_slice(rt.alloc(), asked)?;
        let (ended, written) = run(&rt, &limits, words, log, asked)?;
        assert_eq!(rt; ended, status, "{words}");
        assert_eq!(rt; written.as_slice(), text, "{words}");
    }
    Ok(())
}

// The lines of `trial 1 3`. Its events are made by hand in docs/FORMATS.md's way: process 101 runs file 31, 104 forks 109,
// and 107 runs file 26. So the last of six objects is process 107, to which file 26 and itself lead, and the file is a source.
const TRIAL: &[u8] = b"{\"back\":2,\"flows\":3,\"kept\":3,\"known\":6,\"mode\":\"plain\"}\n\
    {\"back\":2,\"flows\":3,\"kept\":3,\"known\":6,\"mode\":\"continuous\"}\n\
    {\"back\":2,\"flows\":3,\"kept\":3,\"known\":6,\"mode\":\"full\"}\n\
    {\"back\":1,\"flows\":3,\"kept\":3,\"known\":6,\"mode\":\"source\"}\n";

// The first of these lines.
const FIRST_TRIED: &[u8] = b"{\"back\":2,\"flows\":3,\"kept\":3,\"known\":6,\"mode\":\"plain\"}\n";

#[test]
fn a_trial_writes_a_line_for_each_mode(rt: HostRuntime) -> Result<(), Fail> {
    let none = [].as_slice();
    let first = [0u64].as_slice();
    let second = [1u64].as_slice();
    // its log has 698 bytes; the log and the questions fail at a first read, which isn't made
    let rows = [
        ((698u64, 6u32), none, Status::Done, TRIAL),
        ((697u64, 6u32), none, full(Limit::Input, 697), NOTHING),
        ((698u64, 5u32), none, full(Limit::Entities, 5), NOTHING),
        ((698u64, 6u32), first, Status::WriteFault, NOTHING),
        ((698u64, 6u32), second, Status::WriteFault, FIRST_TRIED),
    ];
    for (most, out, status, text) in rows {
        let limits = limits(most.0, most.1, 9, 99);
        let fails = Fails {
            log: first,
            questions: first,
            out,
        };
        let log = Bytes::new(rt.alloc());
        let asked = Bytes::new(rt.alloc());
        let (ended, written) = run_with(&rt, &limits, "trial 1 3", log, asked, fails)?;
        assert_eq!(rt; ended, status);
        assert_eq!(rt; written.as_slice(), text);
    }
    Ok(())
}

#[test]
fn a_status_has_its_number_and_line(rt: HostRuntime) -> Result<(), Fail> {
    let rows = [
        (Status::Done, 0, ""),
        (Status::BadWords, 2, "audit_cli: bad words\n"),
        (Status::NoMemory, 3, "audit_cli: no memory\n"),
        (Status::ReadFault, 4, "audit_cli: read fault\n"),
        (Status::WriteFault, 5, "audit_cli: write fault\n"),
        (Status::StoreFault, 6, "audit_cli: store fault\n"),
        (Status::BadStore(0), 7, "audit_cli: bad store at 0\n"),
        (Status::BadRow(5), 7, "audit_cli: bad store at 5\n"),
        (
            Status::WrongMode {
                kept: Mode::Plain,
                asked: Mode::Source,
            },
            8,
            "audit_cli: wrong mode: kept plain, asked source\n",
        ),
        (
            Status::ShortLog { taken: 5, had: 0 },
            10,
            "audit_cli: short log: taken 5, had 0\n",
        ),
        (full(Limit::Entities, 2), 9, "audit_cli: full: entities 2\n"),
        (
            full(Limit::Payload, 18_446_744_073_709_551_615),
            9,
            "audit_cli: full: payload 18446744073709551615\n",
        ),
    ];
    for (status, number, text) in rows {
        assert_eq!(rt; status_number(&status), number);
        assert_eq!(rt; status_line(&status).as_str(), text);
    }
    Ok(())
}
