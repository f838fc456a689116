//! Audit logs that a 64-bit seed determines, for trials of the program: the same seed and number of events give the
//! same bytes on every machine.
//!
//! Event i, from 0 on, takes one word of 32 bits from the generator Lcg64Xsh32 with that seed on stream 1:
//!
//!     bits 0 to 3     its process: 100 more
//!     bits 4 and 5    what the process does: 0 and 2 chmod, 1 execve, 3 fork
//!     bits 6 to 10    the inode of the file that is changed or run: 1 more
//!     bits 6 to 9     the child of a fork: 100 more
//!
//! Its time is i milliseconds after the thousandth second, and its serial number i + 1.
#![tactic(auto)]

mod deeds;
mod lines;
mod logs;

pub use logs::generate;
