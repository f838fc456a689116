//! Why the engine stops.

use flow_base::Refused;

/// Why the engine stops within a piece, and how many bytes of it were done.
#[derive(Clone, Copy, Debug, PartialEq, Eq)]
pub struct Stop {
    pub done: usize,
    pub why: Refused,
}
