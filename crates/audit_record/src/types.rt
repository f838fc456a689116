//! Records, each with the line that spells it.
//!
//! A record keeps what later steps ask for and nothing else of its line: the fields of the table of its kind.
ghost use Rattle.std.specs.Prelude.{◌≡◌, []};
ghost use Rattle.audit_record.specs.declared.types.Body.TheVariants as body;

use audit_lex::EventKey;
use flow_base::{Bytes, FileId};
use std::alloc::Global;

/// A system call. `success` and `exit` aren't there if the call didn't return.
#[derive(PartialEq, Eq, Drop)]
pub struct Syscall {
    pub arch: u32,
    pub number: u32,
    pub success: Option<bool>,
    pub exit: Option<i64>,
    pub a0: u64,
    pub a1: u64,
    pub a2: u64,
    pub a3: u64,
    pub ppid: u32,
    pub pid: u32,
    pub exe: Option<Bytes>,
}

/// What a path was to its call.
#[derive(Clone, Copy, Debug, PartialEq, Eq)]
pub enum NameKind {
    Normal,
    Parent,
    Delete,
    Create,
    Unknown,
}

/// A path of a call. The file is there if the line has its inode and its device.
#[derive(PartialEq, Eq, Drop)]
pub struct PathItem {
    pub item: u32,
    pub name: Option<Bytes>,
    pub file: Option<FileId>,
    pub kind: NameKind,
}

/// What a record says.
#[derive(PartialEq, Eq, Drop)]
pub enum Body {
    Syscall(Syscall),
    Path(PathItem),
    Cwd(Option<Bytes>),
    Sockaddr(Bytes),
    FdPair { first: u32, second: u32 },
    Mmap { fd: u32 },
    Proctitle,
    Eoe,
}

/// A record with its line. Records of one key belong to one event.
#[derive(PartialEq, Eq, Drop)]
pub struct Record {
    pub key: EventKey,
    pub line: Bytes,
    pub body: Body,
}

impl Record {
    /// A record without a line, which has no memory yet.
    pub fn blank(alloc: Global) -> Record
        ensures line { result.line ≡ [] }
        ensures body { result.body ≡ body.Eoe }
    {
        Record {
            key: EventKey { ms: 0, serial: 0 },
            line: Bytes::new(alloc),
            body: Body::Eoe,
        }
    }
}

/// What a line gives: nothing if it isn't used, or a record, or the end of the event of this key. The record of an end
/// says no more than that, so none is made of it.
#[derive(Clone, Copy, Debug, PartialEq, Eq)]
pub enum Read {
    Unused,
    Record,
    End(EventKey),
}
