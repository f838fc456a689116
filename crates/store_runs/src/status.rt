//! How a run ended: the numbers with which the program ends, and what it says.
//!
//!     number   status        text
//!     0        Done          none
//!     2        BadWords      bad words
//!     3        NoMemory      no memory
//!     4        ReadFault     read fault
//!     5        WriteFault    write fault
//!     6        StoreFault    store fault
//!     7        BadStore      bad store at PLACE
//!     7        BadRow        bad store at PLACE
//!     8        WrongMode     wrong mode: kept KEPT, asked ASKED
//!     9        Full          full: LIMIT NUMBER
//!     10       ShortLog      short log: taken TAKEN, had HAD
ghost use Rattle.std.specs.Prelude.{◌≡◌, ◌≤◌, length};
ghost use Rattle.arrayvec.specs.ArrayString.{array_string_len};
ghost use Rattle.store_runs.specs.Statuses.{number_of, line_of, as_line, bad_text, wrong_text, full_text, short_text, limit_name, mode_name, status_for, store_status};

use arrayvec::ArrayString;
use dialogue::{Halt, StoreHalt};
use flow_base::{Full, Limit};
use itoa::Buffer;
use reach_model::Mode;

/// The most bytes of a line about the program's end.
pub const LINE: usize = 80;

/// How a run ended.
#[derive(Clone, Copy, Debug, PartialEq, Eq)]
pub enum Status {
    /// The questions were answered, and `back` took its log to the end.
    Done,
    /// The words name no job.
    BadWords,
    /// Memory ran out. No clause says when.
    NoMemory,
    /// The log or the questions couldn't be read.
    ReadFault,
    /// A reply couldn't be written.
    WriteFault,
    /// A call on the store's disk failed.
    StoreFault,
    /// The disk isn't a store. The place is that of the batch from which on it isn't one.
    BadStore(u64),
    /// At this place of an opened store stands no row.
    BadRow(u64),
    /// The store is of another mode than the word says.
    WrongMode { kept: Mode, asked: Mode },
    /// A limit would have been passed.
    Full(Full),
    /// The log has fewer bytes than the store has taken of it.
    ShortLog { taken: u64, had: u64 },
}

/// The number with which the program ends.
pub fn status_number(status: &Status) -> u8
    ensures { result ≡ number_of status.now }
{
    match status {
        Status::Done => 0,
        Status::BadWords => 2,
        Status::NoMemory => 3,
        Status::ReadFault => 4,
        Status::WriteFault => 5,
        Status::StoreFault => 6,
        Status::BadStore(_) => 7,
        Status::BadRow(_) => 7,
        Status::WrongMode { kept: _, asked: _ } => 8,
        Status::Full(_) => 9,
        Status::ShortLog { taken: _, had: _ } => 10,
    }
}

/// The line that the program says of its end on standard error, with its line feed. At `Done` it is empty.
///
/// It takes no memory, so that it can be said when nothing can be allocated.
pub fn status_line(status: &Status) -> ArrayString<LINE>
    ensures { result.bytes ≡ line_of status.now }
{
    match *status {
        Status::Done => ArrayString::new(),
        Status::BadWords => as_line("bad words"),
        Status::NoMemory => as_line("no memory"),
        Status::ReadFault => as_line("read fault"),
        Status::WriteFault => as_line("write fault"),
        Status::StoreFault => as_line("store fault"),
        Status::BadStore(place) => as_line(bad_text(place).as_str()),
        Status::BadRow(place) => as_line(bad_text(place).as_str()),
        Status::WrongMode { kept, asked } => as_line(wrong_text(kept, asked).as_str()),
        Status::Full(full) => as_line(full_text(full).as_str()),
        Status::ShortLog { taken, had } => as_line(short_text(taken, had).as_str()),
    }
}

// A text after the program's name.
fn as_line(text: &str) -> ArrayString<LINE>
    requires { length text.now ≤ 64 }
    ensures { result.bytes ≡ as_line text.now }
{
    let mut line = ArrayString::new();
    line.push_str("audit_cli: ");
    line.push_str(text);
    line.push_str("\n");
    line
}

// The batch from which on a disk isn't a store.
fn bad_text(place: u64) -> ArrayString<LINE>
    ensures text { result.bytes ≡ bad_text place }
    ensures short { array_string_len result ≤ 64 }
{
    let mut digits = Buffer::new();
    let mut text = ArrayString::new();
    text.push_str("bad store at ");
    text.push_str(digits.format(place));
    text
}

// The mode of the store, and the mode that was asked for.
fn wrong_text(kept: Mode, asked: Mode) -> ArrayString<LINE>
    ensures text { result.bytes ≡ wrong_text kept asked }
    ensures short { array_string_len result ≤ 64 }
{
    let mut text = ArrayString::new();
    text.push_str("wrong mode: kept ");
    text.push_str(name_of_mode(kept));
    text.push_str(", asked ");
    text.push_str(name_of_mode(asked));
    text
}

// How many bytes of a log the store has taken, and how many there were.
fn short_text(taken: u64, had: u64) -> ArrayString<LINE>
    ensures text { result.bytes ≡ short_text taken had }
    ensures short { array_string_len result ≤ 64 }
{
    let mut digits = Buffer::new();
    let mut text = ArrayString::new();
    text.push_str("short log: taken ");
    text.push_str(digits.format(taken));
    text.push_str(", had ");
    text.push_str(digits.format(had));
    text
}

// Which limit was reached, and its number.
fn full_text(full: Full) -> ArrayString<LINE>
    ensures text { result.bytes ≡ full_text full }
    ensures short { array_string_len result ≤ 64 }
{
    let mut digits = Buffer::new();
    let mut text = ArrayString::new();
    text.push_str("full: ");
    text.push_str(name_of(full.limit));
    text.push_str(" ");
    text.push_str(digits.format(full.number));
    text
}

// The name of a limit.
fn name_of(limit: Limit) -> &'static str
    ensures name { result.now ≡ limit_name limit }
    ensures short { length result.now ≤ 8 }
{
    match limit {
        Limit::Input => "input",
        Limit::Entities => "entities",
        Limit::Flows => "flows",
        Limit::Payload => "payload",
        Limit::Store => "store",
    }
}

/// The name of a mode.
pub fn name_of_mode(mode: Mode) -> &'static str
    ensures name { result.now ≡ mode_name mode }
    ensures short { length result.now ≤ 10 }
{
    match mode {
        Mode::Plain => "plain",
        Mode::Continuous => "continuous",
        Mode::Full => "full",
        Mode::Source => "source",
    }
}

/// The status of a run.
pub fn status_of(outcome: Result<(), Halt>) -> Status
    ensures { result ≡ status_for outcome }
{
    match outcome {
        Ok(()) => Status::Done,
        Err(Halt::NoMemory) => Status::NoMemory,
        Err(Halt::ReadFault) => Status::ReadFault,
        Err(Halt::WriteFault) => Status::WriteFault,
        Err(Halt::StoreFault) => Status::StoreFault,
        Err(Halt::BadRow(place)) => Status::BadRow(place),
        Err(Halt::Full(full)) => Status::Full(full),
        Err(Halt::Unwritten(full)) => Status::Full(full),
    }
}

/// The status of a run over a store.
pub fn status_over_store(outcome: Result<(), StoreHalt>) -> Status
    ensures { result ≡ store_status outcome }
{
    match outcome {
        Ok(()) => Status::Done,
        Err(StoreHalt::Run(why)) => status_of(Err(why)),
        Err(StoreHalt::BadStore(place)) => Status::BadStore(place),
        Err(StoreHalt::WrongMode { kept, asked }) => Status::WrongMode { kept, asked },
        Err(StoreHalt::ShortLog { taken, had }) => Status::ShortLog { taken, had },
    }
}
