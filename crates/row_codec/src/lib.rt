//! Rows of a store as bytes, each in its one spelling, and the payload of a batch.
//!
//!     tag  row        fields
//!     1    Entity     key
//!     2    Kept       from n4, to n4, mark, before_to n8, before_from n8 (the index plus 1, or 0)
//!     3    Extend     row n8, mark
//!     4    Name       key, text
//!     5    Life       pid n4, life n8, live flag, awaits flag, ppid n4 (0 if it awaits nobody),
//!                     linked flag
//!     6    Held       pid n4, fd n4, held flag; if it is 1: cloexec flag, object
//!     7    Address    act n8, text
//!     8    Born       major n4, minor n4, ino n8, born n8
//!     9    Waiting    ms n8, serial n4, closed flag, count n4, then count texts
//!     10   State      thirteen counts n8, seen flag, n8, released flag, n8, n4, effective n8,
//!                     long flag, tail text, count n4, that many malformed lines: line n8,
//!                     fault byte
//!
//! A number (n4 of four bytes, n8 of eight) has its least byte first. A flag is a byte 0 or 1. A
//! text is its length as n4, then its bytes. A mark is ms n8, place n8, how byte, serial n4. A key
//! is a byte for its kind, then the fields of the kind; an object is 1 and the key of a file, or 2
//! (pipe) or 3 (socket) and an act n8.
//!
//! Each part of a row has three functions in `specs/`: its bytes, the values that have a spelling
//! (`Fits..`), and what is read from the first bytes of a list (`.._at`). A law ties them: what
//! is spelled is read again, whatever follows it, and nothing else is read.
#![tactic(auto)]

mod clock;
mod counts;
mod fault;
mod keys;
mod lives;
mod marks;
mod numbers;
mod objects;
mod payload;
mod readers;
mod rows;
mod state;
mod tail;
mod texts;
mod writers;

pub use fault::RowRead;
pub use payload::{Payload, payloads_are_apart, read_payload, write_payload};
pub use readers::{read_extend, read_kept, read_row, spellings_are_apart};
pub use rows::{ExtendRow, KeptRow, StoreRow};
pub use state::StateRow;
pub use writers::{rows_that_fit_can_be_spelled, write_row};
