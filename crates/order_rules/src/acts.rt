//! What calls of x86-64 do to descriptors, by their numbers and arguments.
ghost use Rattle.std.specs.Prelude.{◌≡◌, ◌<◌};
ghost use Rattle.order_rules.specs.Calls as calls;

use crate::call::{Act, Args, Asks, SocketKind};

/// The weight of the flag O_CLOEXEC and its like.
const CLOEXEC: u32 = 0x8_0000;

/// The weight of the flag CLONE_THREAD.
const THREAD: u32 = 0x1_0000;

/// The type SOCK_STREAM.
const STREAM: u32 = 1;

/// The type SOCK_DGRAM.
const DATAGRAMS: u32 = 2;

/// The descriptor of the working directory.
const AT_FDCWD: u32 = 0xffff_ff9c;

/// What a call did that has succeeded, by its answer and its arguments.
pub fn act_with(number: u32, answer: Option<u32>, args: Args) -> Act
    ensures { result ≡ calls.act_with number answer args }
{
    if opens(number) {
        return opened(answer, open_stays(number, args));
    }
    if makes(number) {
        return made(answer, socket_stays(number, args), makes_kind(number, args));
    }
    if number == 3 {
        return closed(args.first);
    }
    if closes_range(number) {
        return ranged(args.first, args.second, args.third);
    }
    if copies(number, args.second) {
        return copied(args.first, answer, copy_stays(number, args));
    }
    if marks(number, args.second) {
        return marked(args.first, args.third);
    }
    if begins(number, args.first) {
        return begun(answer);
    }
    if runs(number) {
        Act::Runs
    } else {
        Act::Nothing
    }
}

// open, creat, openat, openat2
fn opens(number: u32) -> bool
    ensures { result ≡ calls.opens number }
{
    matches!(number, 2 | 85 | 257 | 437)
}

// socket, accept, accept4
fn makes(number: u32) -> bool
    ensures { result ≡ calls.makes number }
{
    matches!(number, 41 | 43 | 288)
}

// accept, accept4
fn accepts(number: u32) -> bool
    ensures { result ≡ calls.accepts number }
{
    matches!(number, 43 | 288)
}

// recvfrom, recvmsg
fn receives(number: u32) -> bool
    ensures { result ≡ calls.receives number }
{
    matches!(number, 45 | 47)
}

// sendto, sendmsg
fn sends(number: u32) -> bool
    ensures { result ≡ calls.sends number }
{
    matches!(number, 44 | 46)
}

// execve, execveat
fn runs(number: u32) -> bool
    ensures { result ≡ calls.runs number }
{
    matches!(number, 59 | 322)
}

// dup, dup2, dup3, and fcntl with the commands that copy
fn copies(number: u32, command: Option<u32>) -> bool
    ensures { result ≡ calls.copies number command }
{
    matches!(number, 32 | 33 | 292) || number == 72 && matches!(command, Some(0 | 1030))
}

// fcntl with the command that sets the mark of a descriptor
fn marks(number: u32, command: Option<u32>) -> bool
    ensures { result ≡ calls.marks number command }
{
    number == 72 && matches!(command, Some(2))
}

// fork, vfork, clone3, and a clone that makes no thread
fn begins(number: u32, flags: Option<u32>) -> bool
    ensures { result ≡ calls.begins number flags }
{
    matches!(number, 57 | 58 | 435) || number == 56 && lacks(THREAD, flags)
}

// Whether flags lack the bit of this weight. Unknown flags have it.
fn lacks(weight: u32, flags: Option<u32>) -> bool
    requires { 0 < weight }
    ensures { result ≡ calls.lacks weight flags }
{
    match flags {
        None => false,
        Some(flags) => flags / weight % 2 == 0,
    }
}

fn stays_by(flags: Option<u32>) -> bool
    ensures { result ≡ calls.stays_by flags }
{
    lacks(CLOEXEC, flags)
}

// Whether an exec leaves open what a call opens. The flags of openat2 aren't in its record.
fn open_stays(number: u32, args: Args) -> bool
    ensures { result ≡ calls.open_stays number args }
{
    match number {
        85 => true,
        2 => stays_by(args.second),
        257 => stays_by(args.third),
        _ => false,
    }
}

// The same of a new socket.
fn socket_stays(number: u32, args: Args) -> bool
    ensures { result ≡ calls.socket_stays number args }
{
    match number {
        43 => true,
        41 => stays_by(args.second),
        _ => stays_by(args.fourth),
    }
}

// The same of a copy.
fn copy_stays(number: u32, args: Args) -> bool
    ensures { result ≡ calls.copy_stays number args }
{
    match number {
        292 => stays_by(args.third),
        72 => matches!(args.second, Some(0)),
        _ => true,
    }
}

fn opened(fd: Option<u32>, stays: bool) -> Act
    ensures { result ≡ calls.opened fd stays }
{
    match fd {
        Some(fd) => Act::Opens { fd, stays },
        None => Act::Nothing,
    }
}

fn made(fd: Option<u32>, stays: bool, kind: SocketKind) -> Act
    ensures { result ≡ calls.made fd stays kind }
{
    match fd {
        Some(fd) => Act::Makes { fd, stays, kind },
        None => Act::Nothing,
    }
}

// What a new socket carries: that of an accept a stream, and another by its type.
fn makes_kind(number: u32, args: Args) -> SocketKind
    ensures { result ≡ calls.makes_kind number args }
{
    if number == 41 {
        return kind_by(args.second);
    }
    SocketKind::Stream
}

// What a socket of this type carries.
fn kind_by(flags: Option<u32>) -> SocketKind
    ensures { result ≡ calls.kind_by flags }
{
    match flags {
        Some(flags) => kind_of(flags % 16),
        None => SocketKind::Other,
    }
}

fn kind_of(socket_type: u32) -> SocketKind
    ensures { result ≡ calls.kind_of socket_type }
{
    if socket_type == STREAM {
        return SocketKind::Stream;
    }
    if socket_type == DATAGRAMS {
        return SocketKind::Datagrams;
    }
    SocketKind::Other
}

fn closed(fd: Option<u32>) -> Act
    ensures { result ≡ calls.closed fd }
{
    match fd {
        Some(fd) => Act::Closes { fd },
        None => Act::Nothing,
    }
}

// close_range
fn closes_range(number: u32) -> bool
    ensures { result ≡ calls.closes_range number }
{
    number == 436
}

// Whether a close_range closes now: the flag 4 says that an exec will.
fn closes_now(flags: Option<u32>) -> bool
    ensures { result ≡ calls.closes_now flags }
{
    match flags {
        None => true,
        Some(_) => lacks(4, flags),
    }
}

fn ranged(first: Option<u32>, last: Option<u32>, flags: Option<u32>) -> Act
    ensures { result ≡ calls.ranged first last flags }
{
    match (first, last) {
        (Some(first), Some(last)) => {
            if closes_now(flags) {
                Act::ClosesRange { first, last }
            } else {
                Act::Nothing
            }
        }
        _ => Act::Nothing,
    }
}

fn copied(from: Option<u32>, to: Option<u32>, stays: bool) -> Act
    ensures { result ≡ calls.copied from to stays }
{
    match (from, to) {
        (Some(from), Some(to)) => {
            if from == to {
                Act::Nothing
            } else {
                Act::Copies { from, to, stays }
            }
        }
        _ => Act::Nothing,
    }
}

fn marked(fd: Option<u32>, flags: Option<u32>) -> Act
    ensures { result ≡ calls.marked fd flags }
{
    match fd {
        Some(fd) => Act::Copies {
            from: fd,
            to: fd,
            stays: lacks(1, flags),
        },
        None => Act::Nothing,
    }
}

fn begun(child: Option<u32>) -> Act
    ensures { result ≡ calls.begun child }
{
    match child {
        Some(child) => Act::Begins { child },
        None => Act::Nothing,
    }
}

/// What the records after that of a call say something about.
pub fn asks_with(number: u32, done: bool, begun: bool, args: Args) -> Asks
    ensures { result ≡ calls.asks_with number done begun args }
{
    if is_at_first(number) {
        return relative(args.first);
    }
    if number == 266 {
        return relative(args.second);
    }
    if is_at_both(number) {
        return relative_both(args.first, args.third);
    }
    if done && number == 49 {
        return binding(args.first);
    }
    if done && accepts(number) {
        return accepting(args.first, args.second);
    }
    if done && receives(number) {
        return receiving(args.first);
    }
    if done && sends(number) {
        return sending(args.first);
    }
    if (done || begun) && number == 42 {
        return connecting(args.first);
    }
    Asks::Nothing
}

// mkdirat, mknodat, fchownat, unlinkat, fchmodat, openat, openat2, execveat
fn is_at_first(number: u32) -> bool
    ensures { result ≡ calls.is_at_first number }
{
    matches!(number, 257 | 258 | 259 | 260 | 263 | 268 | 322 | 437)
}

// renameat, linkat, renameat2
fn is_at_both(number: u32) -> bool
    ensures { result ≡ calls.is_at_both number }
{
    matches!(number, 264 | 265 | 316)
}

// Names that are relative to a descriptor, unless it is that of the working directory.
fn relative(fd: Option<u32>) -> Asks
    ensures { result ≡ calls.relative fd }
{
    match fd {
        Some(fd) => {
            if fd == AT_FDCWD {
                Asks::Nothing
            } else {
                Asks::At { fd }
            }
        }
        None => Asks::Nothing,
    }
}

// Names that are relative to two descriptors, if they are one.
fn relative_both(one: Option<u32>, other: Option<u32>) -> Asks
    ensures { result ≡ calls.relative_both one other }
{
    match (one, other) {
        (Some(first), Some(second)) => {
            if first == second {
                relative(one)
            } else {
                Asks::Nothing
            }
        }
        _ => Asks::Nothing,
    }
}

fn binding(fd: Option<u32>) -> Asks
    ensures { result ≡ calls.binding fd }
{
    match fd {
        Some(fd) => Asks::Binds { fd },
        None => Asks::Nothing,
    }
}

// An accept with no place for the peer's address doesn't ask for it.
fn accepting(fd: Option<u32>, place: Option<u32>) -> Asks
    ensures { result ≡ calls.accepting fd place }
{
    match fd {
        Some(fd) => Asks::Accepts {
            fd,
            silent: matches!(place, Some(0)),
        },
        None => Asks::Nothing,
    }
}

fn connecting(fd: Option<u32>) -> Asks
    ensures { result ≡ calls.connecting fd }
{
    match fd {
        Some(fd) => Asks::Connects { fd },
        None => Asks::Nothing,
    }
}

fn receiving(fd: Option<u32>) -> Asks
    ensures { result ≡ calls.receiving fd }
{
    match fd {
        Some(fd) => Asks::Receives { fd },
        None => Asks::Nothing,
    }
}

fn sending(fd: Option<u32>) -> Asks
    ensures { result ≡ calls.sending fd }
{
    match fd {
        Some(fd) => Asks::Sends { fd },
        None => Asks::Nothing,
    }
}
