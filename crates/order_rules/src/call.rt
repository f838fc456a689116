//! Calls, as the rules ask for them.

use order_lines::Own;

/// What a call does to the descriptors of its process.
#[derive(Clone, Copy, Debug, PartialEq, Eq)]
pub enum Act {
    /// Nothing, or nothing that is followed.
    Nothing,
    /// It opens a descriptor, of which a PATH record says more. `stays`: an exec leaves it open.
    Opens {
        fd: u32,
        stays: bool,
    },
    /// It makes a socket of this kind, which has no port so far.
    Makes {
        fd: u32,
        stays: bool,
        kind: SocketKind,
    },
    /// It closes a descriptor.
    Closes {
        fd: u32,
    },
    /// It closes the descriptors from `first` to `last`.
    ClosesRange {
        first: u32,
        last: u32,
    },
    /// The descriptor `to` holds what `from` holds.
    Copies {
        from: u32,
        to: u32,
        stays: bool,
    },
    /// It begins a process that inherits what its own process holds.
    Begins {
        child: u32,
    },
    /// The process runs another program.
    Runs,
    /// The process ends.
    Ends,
}

/// What a socket carries, as far as it is known.
#[derive(Clone, Copy, Debug, PartialEq, Eq)]
pub enum SocketKind {
    /// A stream: it is of the type SOCK_STREAM, or was accepted.
    Stream,
    /// Datagrams: it is of the type SOCK_DGRAM.
    Datagrams,
    /// It isn't known, or neither.
    Other,
}

/// What the records after that of a call say something about.
#[derive(Clone, Copy, Debug, PartialEq, Eq)]
pub enum Asks {
    /// Nothing that a rule asks for.
    Nothing,
    /// Names that are relative to the directory of this descriptor.
    At { fd: u32 },
    /// The address that this descriptor is bound to.
    Binds { fd: u32 },
    /// The peer that this listening descriptor accepted. `silent`: the call didn't ask for its address.
    Accepts { fd: u32, silent: bool },
    /// The address that this descriptor connects to.
    Connects { fd: u32 },
    /// The peer from which something was received by this descriptor.
    Receives { fd: u32 },
    /// The peer to which something was sent by this descriptor.
    Sends { fd: u32 },
    /// The call's own record: this was the name of a descriptor, which may be what the call opens.
    Owns { own: Own },
}

/// A call: the process that made it, what it does, and what the records after it say.
#[derive(Clone, Copy, Debug, PartialEq, Eq)]
pub struct Call {
    pub pid: u32,
    pub act: Act,
    pub asks: Asks,
}

/// The low 32 bits of the arguments of a call, as far as its record has them.
#[derive(Clone, Copy, Debug, PartialEq, Eq)]
pub struct Args {
    pub first: Option<u32>,
    pub second: Option<u32>,
    pub third: Option<u32>,
    pub fourth: Option<u32>,
}
