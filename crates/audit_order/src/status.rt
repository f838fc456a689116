//! How a run ended: the numbers with which the program ends, and what it says.
//!
//!     number   status        text
//!     0        Done          none
//!     2        BadWords      bad words
//!     3        NoMemory      no memory
//!     4        ReadFault     read fault
//!     5        WriteFault    write fault
ghost use Rattle.std.specs.Prelude.{◌≡◌};
ghost use Rattle.audit_order.specs.Statuses.{number_of, line_of, status_for};

use crate::halt::Halt;

/// How a run ended.
#[derive(Clone, Copy, Debug, PartialEq, Eq)]
pub enum Status {
    /// The whole log was written.
    Done,
    /// The words name no job.
    BadWords,
    /// An allocation failed.
    NoMemory,
    /// The log couldn't be read.
    ReadFault,
    /// A line couldn't be written.
    WriteFault,
}

/// The number with which the program ends.
pub fn status_number(status: Status) -> u8
    ensures { result ≡ number_of status }
{
    match status {
        Status::Done => 0,
        Status::BadWords => 2,
        Status::NoMemory => 3,
        Status::ReadFault => 4,
        Status::WriteFault => 5,
    }
}

/// The line that the program says of its end on standard error, with its line feed. At `Done` it is empty.
pub fn status_line(status: Status) -> &'static [u8]
    ensures { result.now ≡ line_of status }
{
    match status {
        Status::Done => b"",
        Status::BadWords => b"audit_order: bad words\n",
        Status::NoMemory => b"audit_order: no memory\n",
        Status::ReadFault => b"audit_order: read fault\n",
        Status::WriteFault => b"audit_order: write fault\n",
    }
}

/// The status of a run.
pub fn status_of(outcome: Result<(), Halt>) -> Status
    ensures { result ≡ status_for outcome }
{
    match outcome {
        Ok(()) => Status::Done,
        Err(Halt::NoMemory) => Status::NoMemory,
        Err(Halt::ReadFault) => Status::ReadFault,
        Err(Halt::WriteFault) => Status::WriteFault,
    }
}
