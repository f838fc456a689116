//! Trials of the modes and the walks on worked tables.
//!
//! The walks are tried over rows that are written down here and aren't observable, so that no premise hides an answer
//! or a fault, and it is seen which rows are read. The modes are tried on short lists of flows: which rows they keep,
//! and that the answers over the merged rows are those over all flows.
#![tactic(auto)]

mod table;
mod walks;

pub use table::Table;
pub use walks::{back, fore, way};

#[cfg(test)]
mod tests;
