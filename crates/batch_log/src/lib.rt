//! Batches on a disk, each of them whole after a crash or not there.
//!
//!     place      bytes   what stands there
//!     g          1       the gate: 5A closed, A5 open
//!     g + 1      8       n, the length of the payload, least byte first
//!     g + 9      n       the payload
//!     g + 9 + n  1       the next gate, closed
//!
//! The first gate is at 0. A batch counts if its gate is open, and what stands after a closed gate
//! doesn't. So a commit writes all of a batch after the closed gate, syncs, opens the gate and syncs
//! again. On an empty disk it first writes the first gate, closed, with a sync of its own.
#![tactic(auto)]

mod find;
mod log;
mod open;
mod payload;
mod put;

pub use find::Batch;
pub use log::{BatchLog, CommitFault};
pub use open::{LogFault, a_disk_reads_in_one_way};
pub use payload::{listed_batches_have_their_payloads, read_payload};
