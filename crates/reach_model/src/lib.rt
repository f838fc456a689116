//! What reaches what: flows in time order, paths along them, the objects from which a path leads to one, and the rows
//! that each mode keeps in place of all flows.
//!
//! A path follows flows with ascending places, so a flow counts only after those that feed it. The definitions
//! stand in specs/ and look back over whole lists of flows, and the laws say what they promise.
#![tactic(auto)]

mod laws;
mod lists;
mod modes;

pub use laws::{
    first_flows_are_kept, first_flows_ascend, full_keeps_each_path, inflows_open_versions,
    nothing_redundant_stays, rows_are_determined, rows_are_faithful, rows_tell_the_verdict,
    sources_follow_from_earlier_ones,
};
pub use lists::{ascending_ids_are_one, lawful_flows_grow};
pub use modes::{Mode, Verdict};
