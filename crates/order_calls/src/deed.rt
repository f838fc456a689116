//! What lines say of descriptors.

/// What a line of an event says of the descriptors of processes.
#[derive(Clone, Copy, Debug, PartialEq, Eq)]
pub enum Deed {
    /// The event's call opened a descriptor of this process.
    Opens {
        pid: u32,
        fd: u32,
    },
    /// What the event's call opened is a regular file, or isn't.
    Names {
        file: bool,
    },
    /// The event has no more lines.
    Ends,
    /// The descriptor was closed, or is a socket now.
    Closes {
        pid: u32,
        fd: u32,
    },
    /// The descriptors from `first` to `last` were closed.
    ClosesRange {
        pid: u32,
        first: u32,
        last: u32,
    },
    /// The descriptor `to` holds what `from` holds.
    Copies {
        pid: u32,
        from: u32,
        to: u32,
    },
    /// The process runs another program, which may have closed what it held.
    Runs {
        pid: u32,
    },
    /// The process begins with nothing that is known, or has ended.
    Begins {
        pid: u32,
    },
    /// The process, which has this parent itself, began a child, which inherits what it holds.
    Forks {
        pid: u32,
        parent: Option<u32>,
        child: u32,
    },
}
