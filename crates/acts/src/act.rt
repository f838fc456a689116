//! The type of acts.
//!
//! An event of the log does things to processes, descriptors and files, one after the other. Each such thing is an
//! act, and a list of acts is all that the flows of a log depend on. Acts are numbered from 0 in their order.

use flow_base::{Bytes, FileId, How};

/// A file as a record names it: by its number, by its path, or by both.
#[derive(Drop)]
pub struct FileRef {
    pub file: Option<FileId>,
    pub path: Option<Bytes>,
}

/// What is at the other end of a move.
#[derive(Drop)]
pub enum Thing {
    Fd(u32),
    File(FileRef),
    Address(Bytes),
}

/// What a new descriptor opens.
#[derive(Drop)]
pub enum Opens {
    File(FileRef),
    Socket {
        address: Option<Bytes>,
        listener: Option<u32>,
    },
}

/// One thing that an event did. A process is named by its pid.
#[derive(Drop)]
pub enum Act {
    /// A call of this process was logged, with its parent and the program that it runs.
    See {
        pid: u32,
        ppid: u32,
        exe: Option<Bytes>,
    },
    /// The process made a child.
    Fork {
        pid: u32,
        child: u32,
    },
    /// The process ended.
    End {
        pid: u32,
    },
    /// The process runs another program, and its marked descriptors close.
    Exec {
        pid: u32,
    },
    /// A descriptor opens a file or a socket.
    Set {
        pid: u32,
        fd: u32,
        what: Opens,
        cloexec: bool,
    },
    /// Two descriptors open the ends of one pipe.
    SetBoth {
        pid: u32,
        first: u32,
        second: u32,
        cloexec: bool,
    },
    /// A descriptor comes to hold what another one holds.
    Copy {
        pid: u32,
        from: u32,
        to: u32,
        cloexec: bool,
    },
    /// A descriptor closes.
    Close {
        pid: u32,
        fd: u32,
    },
    /// Whether an exec closes this descriptor.
    Mark {
        pid: u32,
        fd: u32,
        cloexec: bool,
    },
    /// The socket at a descriptor has this address from now on.
    Address {
        pid: u32,
        fd: u32,
        bytes: Bytes,
    },
    /// A file came to be, which is another one than any with its number before.
    Birth {
        file: FileRef,
    },
    /// Data went between the process and a thing: inward from the thing, else to it.
    Move {
        pid: u32,
        inward: bool,
        how: How,
        what: Thing,
    },
}

/// An act as a log has it.
#[derive(Drop)]
pub struct Taken {
    pub act: Act,
    /// The effective time of its event: the greatest time among its own and those of the events before it.
    pub ms: u64,
    /// The serial number of its event.
    pub serial: u32,
}
