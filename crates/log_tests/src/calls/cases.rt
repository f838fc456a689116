//! Cases of the table of calls, and the events that they stand for.
use audit_lex::EventKey;
use audit_record::{Body, NameKind, PathItem, Record, Syscall};
use flow_base::{Bytes, Device, FileId, List, NoMemory};
use record_join::EventView;
use std::alloc::Global;

/// The architecture of the table, x86-64, as records write it.
pub const X86_64: u32 = 0xc000_003e;

const KEY: EventKey = EventKey {
    ms: 1000,
    serial: 7,
};

/// What a record beside that of the call says.
#[derive(Clone, Copy)]
pub enum Said {
    Cwd(&'static str),
    NoCwd,
    Path(NameKind, Option<u64>, Option<&'static str>),
    Address(&'static str),
    /// An address of two bytes, the family unix, which names nothing.
    NoAddress,
    Pair(u32, u32),
    Mapped(u32),
}

/// What a call answered.
#[derive(Clone, Copy)]
pub enum Answer {
    Done(i64),
    Refused(i64),
    /// The record has neither `success` nor `exit`.
    None,
}

/// A call's number, its answer, its arguments, the other records, and the acts after the see of its caller.
pub type Case = (u32, Answer, [u64; 4], &'static [Said], &'static str);

/// The records of a case; the records beside the call come before it if the case says so.
pub fn records(alloc: Global, case: &Case, first: bool) -> Result<List<Record>, NoMemory> {
    let (number, answer, arguments, others, _) = *case;
    let mut records = List::new(alloc);
    if !first {
        records.push(record(alloc, call(alloc, X86_64, number, answer, arguments)?))?;
    }
    for said in others {
        records.push(record(alloc, body(alloc, *said)?))?;
    }
    if first {
        records.push(record(alloc, call(alloc, X86_64, number, answer, arguments)?))?;
    }
    Ok(records)
}

/// The only record of an event.
pub fn one_record(alloc: Global, body: Body) -> Result<List<Record>, NoMemory> {
    let mut records = List::new(alloc);
    records.push(record(alloc, body))?;
    Ok(records)
}

/// The event of these records.
pub fn view(records: &[Record]) -> EventView<'_> {
    EventView {
        key: KEY,
        ms: 1000,
        late: false,
        records,
    }
}

/// What a record of a path says.
pub fn path(
    alloc: Global,
    kind: NameKind,
    ino: Option<u64>,
    name: Option<&'static str>,
) -> Result<Body, NoMemory> {
    let file = match ino {
        Some(ino) => Some(file(ino)),
        None => None,
    };
    let name = match name {
        Some(name) => Some(bytes(alloc, name)?),
        None => None,
    };
    Ok(Body::Path(PathItem {
        item: 0,
        name,
        file,
        kind,
    }))
}

/// What the record of a call says, which process 100 made.
pub fn call(
    alloc: Global,
    arch: u32,
    number: u32,
    answer: Answer,
    arguments: [u64; 4],
) -> Result<Body, NoMemory> {
    let (success, exit) = match answer {
        Answer::Done(exit) => (Some(true), Some(exit)),
        Answer::Refused(exit) => (Some(false), Some(exit)),
        Answer::None => (None, None),
    };
    let [a0, a1, a2, a3] = arguments;
    Ok(Body::Syscall(Syscall {
        arch,
        number,
        success,
        exit,
        a0,
        a1,
        a2,
        a3,
        ppid: 1,
        pid: 100,
        exe: Some(bytes(alloc, "/p")?),
    }))
}

fn record(alloc: Global, body: Body) -> Record {
    Record {
        key: KEY,
        line: Bytes::new(alloc),
        body,
    }
}

fn body(alloc: Global, said: Said) -> Result<Body, NoMemory> {
    match said {
        Said::Cwd(text) => Ok(Body::Cwd(Some(bytes(alloc, text)?))),
        Said::NoCwd => Ok(Body::Cwd(None)),
        Said::Path(kind, ino, name) => path(alloc, kind, ino, name),
        Said::Address(text) => Ok(Body::Sockaddr(bytes(alloc, text)?)),
        Said::NoAddress => Ok(Body::Sockaddr(bytes(alloc, "\u{1}\0")?)),
        Said::Pair(first, second) => Ok(Body::FdPair { first, second }),
        Said::Mapped(fd) => Ok(Body::Mmap { fd }),
    }
}

fn bytes(alloc: Global, text: &'static str) -> Result<Bytes, NoMemory> {
    Bytes::from_slice(alloc, text.as_bytes())
}

fn file(ino: u64) -> FileId {
    FileId {
        device: Device { major: 8, minor: 1 },
        ino,
    }
}
