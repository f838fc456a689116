//! Logs in, replies out. The wanted replies are worked out by hand from the rules of joining, lives and flows.
//!
//! A function that owns an engine has one way out, since each way out drops all of its tables.
ghost use Rattle.ingest.specs.Replies.{IsQuestion};

use flow_base::{EntityId, Full, Limit, Limits, NoMemory, Refused};
use ingest::{Ingest, Stop};
use reach_rows::{Plain, Question, Reducer, VecRows};
use reduce_continuous::Continuous;
use report_json::{Ask, FindText, reply_text};
use std::alloc::Global;
use std::test::Fail;
use table_salt::Salt;

/// 100 forks 101, and 101 writes to a descriptor that nobody opened.
const TWO_FLOWS: &[u8] =
    b"type=SYSCALL msg=audit(1.000:1): arch=c000003e syscall=57 success=yes exit=101 a0=0 a1=0 a2=0 a3=0 items=0 ppid=1 pid=100 comm=\"p\" exe=\"/p\"\ntype=SYSCALL msg=audit(1.001:2): arch=c000003e syscall=1 success=yes exit=5 a0=1 a1=0 a2=5 a3=0 items=0 ppid=100 pid=101 comm=\"p\" exe=\"/p\"\n";

/// Two forks of 100, one of them with text that was added for readers, and a path without its closing quote.
const ENRICHED: &[u8] =
    b"type=SYSCALL msg=audit(1.000:1): arch=c000003e syscall=57 success=yes exit=101 a0=0 a1=0 a2=0 a3=0 items=0 ppid=1 pid=100 comm=\"p\" exe=\"/p\"\x1dARCH=x86_64 SYSCALL=fork\nnode=web1 type=SYSCALL msg=audit(1.001:2): arch=c000003e syscall=57 success=yes exit=102 a0=0 a1=0 a2=0 a3=0 items=0 ppid=1 pid=100 comm=\"p\" exe=\"/p\"\ntype=PATH msg=audit(1.001:2): item=0 name=\"/f7 inode=7 dev=08:01 nametype=NORMAL\n";

/// Three forks of 100, the last two of them two seconds later, and a millisecond more.
const FORKS: &[u8] =
    b"type=SYSCALL msg=audit(1.000:1): arch=c000003e syscall=57 success=yes exit=101 a0=0 a1=0 a2=0 a3=0 items=0 ppid=1 pid=100 comm=\"p\" exe=\"/p\"\ntype=SYSCALL msg=audit(3.000:2): arch=c000003e syscall=57 success=yes exit=102 a0=0 a1=0 a2=0 a3=0 items=0 ppid=1 pid=100 comm=\"p\" exe=\"/p\"\ntype=SYSCALL msg=audit(3.001:3): arch=c000003e syscall=57 success=yes exit=103 a0=0 a1=0 a2=0 a3=0 items=0 ppid=1 pid=100 comm=\"p\" exe=\"/p\"\n";

/// 100 forks 101; 102 is seen as a child of 100, and writes: two flows and two objects more.
const SEEN: &[u8] =
    b"type=SYSCALL msg=audit(1.000:1): arch=c000003e syscall=57 success=yes exit=101 a0=0 a1=0 a2=0 a3=0 items=0 ppid=1 pid=100 comm=\"p\" exe=\"/p\"\ntype=SYSCALL msg=audit(1.001:2): arch=c000003e syscall=1 success=yes exit=5 a0=1 a1=0 a2=5 a3=0 items=0 ppid=100 pid=102 comm=\"p\" exe=\"/p\"\n";

/// Three changes of file 7, of 250 bytes each: by 100, by 200 and by 100 again. The second one makes a third object.
const CHANGES: &[u8] =
    b"type=SYSCALL msg=audit(1.000:1): arch=c000003e syscall=90 success=yes exit=0 a0=0 a1=0 a2=0 a3=0 items=0 ppid=1 pid=100 comm=\"p\" exe=\"/p\"\ntype=PATH msg=audit(1.000:1): item=0 name=\"/f7\" inode=7 dev=08:01 nametype=NORMAL\ntype=EOE msg=audit(1.000:1): \ntype=SYSCALL msg=audit(2.000:2): arch=c000003e syscall=90 success=yes exit=0 a0=0 a1=0 a2=0 a3=0 items=0 ppid=1 pid=200 comm=\"p\" exe=\"/p\"\ntype=PATH msg=audit(2.000:2): item=0 name=\"/f7\" inode=7 dev=08:01 nametype=NORMAL\ntype=EOE msg=audit(2.000:2): \ntype=SYSCALL msg=audit(3.000:3): arch=c000003e syscall=90 success=yes exit=0 a0=0 a1=0 a2=0 a3=0 items=0 ppid=1 pid=100 comm=\"p\" exe=\"/p\"\ntype=PATH msg=audit(3.000:3): item=0 name=\"/f7\" inode=7 dev=08:01 nametype=NORMAL\ntype=EOE msg=audit(3.000:3): \n";

/// A change of a file whose name is in hex, and a name with half a byte.
const HEX_CODED: &[u8] =
    b"type=SYSCALL msg=audit(1.000:1): arch=c000003e syscall=90 success=yes exit=0 a0=0 a1=0 a2=0 a3=0 items=0 ppid=1 pid=100 comm=\"p\" exe=\"/p\"\ntype=PATH msg=audit(1.000:1): item=0 name=2F746D702F6120622E747874 inode=7 dev=08:01 nametype=NORMAL\ntype=PATH msg=audit(1.000:1): item=1 name=2F7 nametype=NORMAL\ntype=EOE msg=audit(1.000:1): \n";

/// 101 is seen before 100 forks it, ends, and its pid is forked again.
const USED_AGAIN: &[u8] =
    b"type=SYSCALL msg=audit(1.000:1): arch=c000003e syscall=90 success=no exit=-13 a0=0 a1=0 a2=0 a3=0 items=0 ppid=1 pid=100 comm=\"p\" exe=\"/p\"\ntype=SYSCALL msg=audit(1.001:2): arch=c000003e syscall=0 success=yes exit=5 a0=3 a1=0 a2=5 a3=0 items=0 ppid=100 pid=101 comm=\"p\" exe=\"/p\"\ntype=SYSCALL msg=audit(1.002:3): arch=c000003e syscall=57 success=yes exit=101 a0=0 a1=0 a2=0 a3=0 items=0 ppid=1 pid=100 comm=\"p\" exe=\"/p\"\ntype=SYSCALL msg=audit(1.003:4): arch=c000003e syscall=231 success=yes exit=0 a0=0 a1=0 a2=0 a3=0 items=0 ppid=100 pid=101 comm=\"p\" exe=\"/p\"\ntype=SYSCALL msg=audit(1.004:5): arch=c000003e syscall=57 success=yes exit=101 a0=0 a1=0 a2=0 a3=0 items=0 ppid=1 pid=100 comm=\"p\" exe=\"/p\"\n";

/// 100 opens file 7, copies its descriptor, runs file 8, reads from both descriptors, connects and writes.
pub const DESCRIPTORS: &[u8] =
    b"type=SYSCALL msg=audit(1.000:1): arch=c000003e syscall=257 success=yes exit=3 a0=ffffff9c a1=0 a2=80000 a3=0 items=0 ppid=1 pid=100 comm=\"p\" exe=\"/p\"\ntype=PATH msg=audit(1.000:1): item=0 name=\"/f7\" inode=7 dev=08:01 nametype=NORMAL\ntype=SYSCALL msg=audit(1.001:2): arch=c000003e syscall=33 success=yes exit=9 a0=3 a1=9 a2=0 a3=0 items=0 ppid=1 pid=100 comm=\"p\" exe=\"/p\"\ntype=SYSCALL msg=audit(1.002:3): arch=c000003e syscall=59 success=yes exit=0 a0=0 a1=0 a2=0 a3=0 items=0 ppid=1 pid=100 comm=\"p\" exe=\"/p\"\ntype=PATH msg=audit(1.002:3): item=0 name=\"/f8\" inode=8 dev=08:01 nametype=NORMAL\ntype=SYSCALL msg=audit(1.003:4): arch=c000003e syscall=0 success=yes exit=1 a0=3 a1=0 a2=1 a3=0 items=0 ppid=1 pid=100 comm=\"p\" exe=\"/p\"\ntype=SYSCALL msg=audit(1.004:5): arch=c000003e syscall=0 success=yes exit=1 a0=9 a1=0 a2=1 a3=0 items=0 ppid=1 pid=100 comm=\"p\" exe=\"/p\"\ntype=SYSCALL msg=audit(1.005:6): arch=c000003e syscall=41 success=yes exit=4 a0=2 a1=1 a2=0 a3=0 items=0 ppid=1 pid=100 comm=\"p\" exe=\"/p\"\ntype=SYSCALL msg=audit(1.006:7): arch=c000003e syscall=42 success=no exit=-115 a0=4 a1=0 a2=10 a3=0 items=0 ppid=1 pid=100 comm=\"p\" exe=\"/p\"\ntype=SOCKADDR msg=audit(1.006:7): saddr=020001BBC00002010000000000000000\ntype=SYSCALL msg=audit(1.007:8): arch=c000003e syscall=1 success=yes exit=1 a0=4 a1=0 a2=1 a3=0 items=0 ppid=1 pid=100 comm=\"p\" exe=\"/p\"\n";

/// A user prints a file of the folder that they are in.
const NOTES: &[u8] =
    b"type=SYSCALL msg=audit(1700000000.100:501): arch=c000003e syscall=257 success=yes exit=3 a0=ffffff9c a1=7ffc1a2b a2=0 a3=0 items=1 ppid=2686 pid=3540 auid=1000 uid=1000 tty=pts0 ses=1 comm=\"cat\" exe=\"/usr/bin/cat\" key=(null)\ntype=CWD msg=audit(1700000000.100:501): cwd=\"/home/ann\"\ntype=PATH msg=audit(1700000000.100:501): item=0 name=\"notes.txt\" inode=131 dev=fd:00 mode=0100644 ouid=1000 ogid=1000 rdev=00:00 nametype=NORMAL cap_fp=0 cap_fi=0 cap_fe=0 cap_fver=0\ntype=PROCTITLE msg=audit(1700000000.100:501): proctitle=636174006E6F7465732E747874\ntype=SYSCALL msg=audit(1700000000.100:502): arch=c000003e syscall=0 success=yes exit=12 a0=3 a1=7ffc1a2b a2=0 a3=0 items=1 ppid=2686 pid=3540 auid=1000 uid=1000 tty=pts0 ses=1 comm=\"cat\" exe=\"/usr/bin/cat\" key=(null)\ntype=PROCTITLE msg=audit(1700000000.100:502): proctitle=636174006E6F7465732E747874\ntype=SYSCALL msg=audit(1700000000.100:503): arch=c000003e syscall=1 success=yes exit=12 a0=1 a1=7ffc1a2b a2=0 a3=0 items=1 ppid=2686 pid=3540 auid=1000 uid=1000 tty=pts0 ses=1 comm=\"cat\" exe=\"/usr/bin/cat\" key=(null)\ntype=PROCTITLE msg=audit(1700000000.100:503): proctitle=636174006E6F7465732E747874\n";

/// An engine that keeps each flow.
type Engine = Ingest<Plain, VecRows>;

/// Whether an answer has this text.
fn answers<R: Reducer>(
    alloc: Global,
    engine: &mut Ingest<R, VecRows>,
    ask: Ask<'_>,
    wanted: &[u8],
) -> Result<bool, NoMemory>
    requires { IsQuestion ask }
{
    match engine.ask(&ask) {
        Ok(reply) => {
            let text = reply_text(alloc, &reply)?;
            Ok(text.as_slice() == wanted)
        }
        Err(_) => Ok(false),
    }
}

fn back(of: u32) -> Ask<'static>
    ensures { IsQuestion result }
{
    Ask::Question(Question::Back {
        of: EntityId(of),
        until: None,
    })
}

fn fore(of: u32, since: u64) -> Ask<'static>
    ensures { IsQuestion result }
{
    Ask::Question(Question::Fore {
        of: EntityId(of),
        since: Some(since),
    })
}

fn why(from: u32, to: u32, until: Option<u64>) -> Ask<'static>
    ensures { IsQuestion result }
{
    Ask::Why {
        from: EntityId(from),
        to: EntityId(to),
        until,
    }
}

/// Takes a log in pieces of this size.
fn take_in_pieces<R: Reducer>(engine: &mut Ingest<R, VecRows>, log: &[u8], size: usize) -> bool {
    let mut rest = log;
    for _ in 0..log.len() {
        let (piece, later) = rest.split_at(rest.len().min(size));
        if engine.feed(piece).is_err() {
            return false;
        }
        rest = later;
    }
    engine.settle().is_ok()
}

fn objects_full(number: u64) -> Refused {
    Refused::Full(Full {
        limit: Limit::Entities,
        number,
    })
}

/// What is done with a new engine.
#[derive(Clone, Copy)]
enum Course {
    Nothing,
    Pieces(usize),
    Enriched,
    Waited,
    Owed,
    Settled,
    Bytes,
    ObjectsOfTwoFlows,
    HexCodedNames,
    APidUsedAgain,
    DescriptorsAndAddresses,
    NamesInAFolder,
}

/// Whether a new engine within these limits goes that course as it should.
fn goes(alloc: Global, limits: &Limits, course: Course) -> Result<bool, NoMemory> {
    let mut engine = Ingest::new(
        alloc,
        Salt::fixed(),
        limits,
        Plain::new(),
        VecRows::new(alloc),
    );
    goes_on(alloc, &mut engine, course)
}

fn goes_on(alloc: Global, engine: &mut Engine, course: Course) -> Result<bool, NoMemory> {
    match course {
        Course::Nothing => knows_nothing(alloc, engine),
        Course::Pieces(size) => joins_pieces(alloc, engine, size),
        Course::Enriched => counts_lines(alloc, engine),
        Course::Waited => releases_late_groups(alloc, engine),
        Course::Owed => Ok(owes_a_refused_event(engine)),
        Course::Settled => Ok(closes_what_waits(engine)),
        Course::Bytes => Ok(stops_at_a_byte(engine)),
        Course::ObjectsOfTwoFlows => objects_of_two_flows(alloc, engine),
        Course::HexCodedNames => hex_coded_names(alloc, engine),
        Course::APidUsedAgain => a_pid_used_again(alloc, engine),
        Course::DescriptorsAndAddresses => descriptors_and_addresses(alloc, engine),
        Course::NamesInAFolder => names_in_a_folder(alloc, engine),
    }
}

fn knows_nothing(alloc: Global, engine: &mut Engine) -> Result<bool, NoMemory> {
    let stat = answers(
        alloc,
        engine,
        Ask::Stat,
        b"{\"blank\":0,\"bytes\":0,\"events\":0,\"excess\":0,\"flows\":0,\"kept\":0,\"known\":0,\"late\":0,\"lines\":0,\"malformed\":0,\"malformed_lines\":[],\"other\":0,\"unmapped\":0,\"used\":0,\"waiting\":0}\n".as_slice(),
    )?;
    let unknown = answers(
        alloc,
        engine,
        back(0),
        b"{\"error\":\"Unknown\"}\n".as_slice(),
    )?;
    Ok(stat && unknown && !engine.owed())
}

fn joins_pieces(alloc: Global, engine: &mut Engine, size: usize) -> Result<bool, NoMemory> {
    let taken = take_in_pieces(engine, TWO_FLOWS, size);
    let answered = answers(
        alloc,
        engine,
        back(2),
        b"{\"back\":2,\"ids\":[0,1,2]}\n".as_slice(),
    )?;
    Ok(taken && answered && engine.events() == 2)
}

fn counts_lines(alloc: Global, engine: &mut Engine) -> Result<bool, NoMemory> {
    let taken = take_in_pieces(engine, ENRICHED, 100);
    let stat = answers(
        alloc,
        engine,
        Ask::Stat,
        b"{\"blank\":0,\"bytes\":396,\"events\":2,\"excess\":0,\"flows\":2,\"kept\":2,\"known\":3,\"late\":0,\"lines\":3,\"malformed\":1,\"malformed_lines\":[[3,5]],\"other\":0,\"unmapped\":0,\"used\":2,\"waiting\":0}\n".as_slice(),
    )?;
    Ok(taken && stat)
}

fn releases_late_groups(alloc: Global, engine: &mut Engine) -> Result<bool, NoMemory> {
    let first = engine.feed(&FORKS[..280]).is_ok();
    let none = answers(
        alloc,
        engine,
        back(0),
        b"{\"error\":\"Unknown\"}\n".as_slice(),
    )?;
    let second = engine.feed(&FORKS[280..420]).is_ok();
    let one = answers(
        alloc,
        engine,
        back(1),
        b"{\"back\":1,\"ids\":[0,1]}\n".as_slice(),
    )?;
    let no_more = answers(
        alloc,
        engine,
        back(2),
        b"{\"error\":\"Unknown\"}\n".as_slice(),
    )?;
    let settled = engine.settle().is_ok();
    let all = answers(
        alloc,
        engine,
        back(2),
        b"{\"back\":2,\"ids\":[0,2]}\n".as_slice(),
    )?;
    Ok(first && none && second && one && no_more && settled && all && engine.events() == 3)
}

fn owes_a_refused_event(engine: &mut Engine) -> bool {
    let why = objects_full(2);
    let first = engine.feed(CHANGES) == Err(Stop { done: 500, why });
    let owed = engine.owed() && engine.events() == 1;
    let again = engine.feed(&[]) == Err(Stop { done: 0, why });
    let settled = engine.settle() == Err(why);
    first && owed && again && settled && engine.owed() && engine.events() == 1
}

// The first event is released by its end, and the second waits for a settle.
fn closes_what_waits(engine: &mut Engine) -> bool {
    let taken = engine.feed(&CHANGES[..470]).is_ok();
    let waits = !engine.owed() && engine.events() == 1;
    let settled = engine.settle() == Err(objects_full(2));
    taken && waits && settled && engine.owed() && engine.events() == 1
}

fn stops_at_a_byte(engine: &mut Engine) -> bool {
    let full = Full {
        limit: Limit::Input,
        number: 5,
    };
    let taken = engine.feed(b"ab\n".as_slice()).is_ok();
    let stopped = engine.feed(b"cdef".as_slice());
    taken
        && stopped
            == Err(Stop {
                done: 2,
                why: Refused::Full(full),
            })
}

fn objects_of_two_flows(alloc: Global, engine: &mut Engine) -> Result<bool, NoMemory> {
    let mut right = take_in_pieces(engine, TWO_FLOWS, 100);
    right &= answers(
        alloc,
        engine,
        Ask::Show(EntityId(0)),
        b"{\"is\":\"process 100 0\",\"names\":[\"/p\"],\"show\":0}\n".as_slice(),
    )?;
    right &= answers(
        alloc,
        engine,
        Ask::Show(EntityId(2)),
        b"{\"is\":\"lost 101 0 1\",\"names\":[],\"show\":2}\n".as_slice(),
    )?;
    right &= answers(
        alloc,
        engine,
        Ask::Show(EntityId(3)),
        b"{\"error\":\"Unknown\"}\n".as_slice(),
    )?;
    right &= answers(
        alloc,
        engine,
        why(0, 3, None),
        b"{\"error\":\"Unknown\"}\n".as_slice(),
    )?;
    right &= answers(
        alloc,
        engine,
        why(3, 0, None),
        b"{\"error\":\"Unknown\"}\n".as_slice(),
    )?;
    right &= answers(
        alloc,
        engine,
        why(2, 2, None),
        b"{\"from\":2,\"path\":[],\"to\":2}\n".as_slice(),
    )?;
    right &= answers(
        alloc,
        engine,
        Ask::Find(FindText::new(b"/p".as_slice())),
        b"{\"find\":\"/p\",\"ids\":[0,1]}\n".as_slice(),
    )?;
    right &= answers(
        alloc,
        engine,
        Ask::Find(FindText::new(b"/".as_slice())),
        b"{\"find\":\"/\",\"ids\":[]}\n".as_slice(),
    )?;
    Ok(right)
}

fn hex_coded_names(alloc: Global, engine: &mut Engine) -> Result<bool, NoMemory> {
    let mut right = take_in_pieces(engine, HEX_CODED, 100);
    right &= answers(
        alloc,
        engine,
        Ask::Find(FindText::new(b"/tmp/a b.txt".as_slice())),
        b"{\"find\":\"/tmp/a b.txt\",\"ids\":[1]}\n".as_slice(),
    )?;
    Ok(right)
}

fn a_pid_used_again(alloc: Global, engine: &mut Engine) -> Result<bool, NoMemory> {
    let mut right = take_in_pieces(engine, USED_AGAIN, 100);
    right &= answers(
        alloc,
        engine,
        back(1),
        b"{\"back\":1,\"ids\":[0,1,2]}\n".as_slice(),
    )?;
    right &= answers(
        alloc,
        engine,
        back(3),
        b"{\"back\":3,\"ids\":[0,3]}\n".as_slice(),
    )?;
    right &= answers(
        alloc,
        engine,
        Ask::Show(EntityId(3)),
        b"{\"is\":\"process 101 1\",\"names\":[],\"show\":3}\n".as_slice(),
    )?;
    Ok(right)
}

fn descriptors_and_addresses(alloc: Global, engine: &mut Engine) -> Result<bool, NoMemory> {
    let mut right = take_in_pieces(engine, DESCRIPTORS, 100);
    right &= answers(
        alloc,
        engine,
        back(4),
        b"{\"back\":4,\"ids\":[0,1,2,3,4]}\n".as_slice(),
    )?;
    right &= answers(
        alloc,
        engine,
        Ask::Show(EntityId(2)),
        b"{\"is\":\"lost 100 0 3\",\"names\":[],\"show\":2}\n".as_slice(),
    )?;
    right &= answers(
        alloc,
        engine,
        Ask::Show(EntityId(3)),
        b"{\"is\":\"file 08:01 7 0\",\"names\":[\"/f7\"],\"show\":3}\n".as_slice(),
    )?;
    right &= answers(
        alloc,
        engine,
        Ask::Show(EntityId(4)),
        b"{\"is\":\"address 192.0.2.1:443\",\"names\":[\"192.0.2.1:443\"],\"show\":4}\n".as_slice(),
    )?;
    right &= answers(
        alloc,
        engine,
        why(0, 4, None),
        b"{\"from\":0,\"path\":[{\"at\":\"1.002\",\"from\":0,\"how\":\"exec\",\"serial\":3,\"to\":1},{\"at\":\"1.007\",\"from\":1,\"how\":\"write\",\"serial\":8,\"to\":4}],\"to\":4}\n".as_slice(),
    )?;
    right &= answers(
        alloc,
        engine,
        why(4, 0, None),
        b"{\"from\":4,\"path\":null,\"to\":0}\n".as_slice(),
    )?;
    right &= answers(
        alloc,
        engine,
        why(2, 4, Some(1006)),
        b"{\"from\":2,\"path\":null,\"to\":4}\n".as_slice(),
    )?;
    Ok(right)
}

fn names_in_a_folder(alloc: Global, engine: &mut Engine) -> Result<bool, NoMemory> {
    let mut right = take_in_pieces(engine, NOTES, 100);
    right &= answers(
        alloc,
        engine,
        Ask::Find(FindText::new(b"/home/ann/notes.txt".as_slice())),
        b"{\"find\":\"/home/ann/notes.txt\",\"ids\":[0]}\n".as_slice(),
    )?;
    right &= answers(
        alloc,
        engine,
        Ask::Show(EntityId(0)),
        b"{\"is\":\"file fd:00 131 0\",\"names\":[\"/home/ann/notes.txt\"],\"show\":0}\n".as_slice(),
    )?;
    Ok(right)
}

/// Whether continuous mode keeps one row of two changes by one process, and answers by its last flow forward.
fn keeps_less(alloc: Global) -> Result<bool, NoMemory> {
    let mut engine = Ingest::new(
        alloc,
        Salt::fixed(),
        &Limits::standard(),
        Continuous::new(alloc, Salt::fixed()),
        VecRows::new(alloc),
    );
    joins_changes(alloc, &mut engine)
}

fn joins_changes(
    alloc: Global,
    engine: &mut Ingest<Continuous, VecRows>,
) -> Result<bool, NoMemory> {
    let taken = take_in_pieces(engine, CHANGES, 100);
    let stat = answers(
        alloc,
        engine,
        Ask::Stat,
        b"{\"blank\":0,\"bytes\":750,\"events\":3,\"excess\":0,\"flows\":3,\"kept\":2,\"known\":3,\"late\":0,\"lines\":9,\"malformed\":0,\"malformed_lines\":[],\"other\":0,\"unmapped\":0,\"used\":9,\"waiting\":0}\n".as_slice(),
    )?;
    let backward = answers(
        alloc,
        engine,
        back(1),
        b"{\"back\":1,\"ids\":[0,1,2]}\n".as_slice(),
    )?;
    let forward = answers(
        alloc,
        engine,
        fore(0, 2500),
        b"{\"fore\":0,\"ids\":[0,1]}\n".as_slice(),
    )?;
    Ok(taken && stat && backward && forward)
}

#[test]
fn continuous_mode_keeps_less_than_all_flows(rt: HostRuntime) -> Result<(), Fail> {
    assert!(rt; keeps_less(rt.alloc())?);
    Ok(())
}

#[test]
fn courses_go_as_worked_out(rt: HostRuntime) -> Result<(), Fail> {
    let alloc = rt.alloc();
    let standard = Limits::standard();
    assert!(rt; goes(alloc, &standard, Course::Nothing)?);
    assert!(rt; goes(alloc, &standard, Course::Enriched)?);
    assert!(rt; goes(alloc, &standard, Course::Waited)?);
    for size in [1, 7, 140, 279] {
        assert!(rt; goes(alloc, &standard, Course::Pieces(size))?, "{size}");
    }
    Ok(())
}

#[test]
fn objects_have_their_names_and_paths(rt: HostRuntime) -> Result<(), Fail> {
    let alloc = rt.alloc();
    let standard = Limits::standard();
    assert!(rt; goes(alloc, &standard, Course::ObjectsOfTwoFlows)?);
    assert!(rt; goes(alloc, &standard, Course::HexCodedNames)?);
    assert!(rt; goes(alloc, &standard, Course::APidUsedAgain)?);
    assert!(rt; goes(alloc, &standard, Course::DescriptorsAndAddresses)?);
    assert!(rt; goes(alloc, &standard, Course::NamesInAFolder)?);
    Ok(())
}

#[test]
fn a_refused_event_is_owed_and_tried_again(rt: HostRuntime) -> Result<(), Fail> {
    let mut limits = Limits::standard();
    limits.entities = 2;
    assert!(rt; goes(rt.alloc(), &limits, Course::Owed)?);
    assert!(rt; goes(rt.alloc(), &limits, Course::Settled)?);
    Ok(())
}

#[test]
fn a_byte_past_the_limit_stops(rt: HostRuntime) -> Result<(), Fail> {
    let mut limits = Limits::standard();
    limits.input = 5;
    assert!(rt; goes(rt.alloc(), &limits, Course::Bytes)?);
    Ok(())
}

/// How a run over the log ends within these limits.
fn stop_of(alloc: Global, limits: &Limits, log: &[u8]) -> Result<(), Refused> {
    let mut engine = Ingest::new(
        alloc,
        Salt::fixed(),
        limits,
        Plain::new(),
        VecRows::new(alloc),
    );
    ends(&mut engine, log)
}

fn ends(engine: &mut Engine, log: &[u8]) -> Result<(), Refused> {
    match engine.feed(log) {
        Ok(()) => engine.settle(),
        Err(stop) => Err(stop.why),
    }
}

#[test]
fn a_limit_stops_the_event_that_would_pass_it(rt: HostRuntime) -> Result<(), Fail> {
    let alloc = rt.alloc();
    let mut limits = Limits::standard();
    limits.entities = 4;
    limits.flows = 3;
    assert_eq!(rt; stop_of(alloc, &limits, SEEN), Ok(()));
    limits.flows = 2;
    let flows = Full {
        limit: Limit::Flows,
        number: 2,
    };
    assert_eq!(rt; stop_of(alloc, &limits, SEEN), Err(Refused::Full(flows)));
    // The event's first act passes the limit of flows alone, but objects go first.
    limits.entities = 3;
    limits.flows = 1;
    assert_eq!(rt; stop_of(alloc, &limits, SEEN), Err(objects_full(3)));
    Ok(())
}
