//! A line that waits, as it comes to the queue and leaves it.

use crate::noted::Noted;
use flow_base::Bytes;

/// A line that waits, with its place, whose parts stand in the order in which they are compared.
#[derive(Drop)]
pub struct Waiting {
    pub time: u64,
    pub goes_by: u32,
    pub serial: u32,
    pub ms: u64,
    pub node: Bytes,
    pub rank: u8,
    pub number: u64,
    pub line: Noted,
}
