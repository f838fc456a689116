//! Full mode: a flow is dropped if a flow between its two objects was kept, and since then no flow into its source.
//!
//! The reducer keeps the versions of the kept flows. A flow is dropped exactly if its pair is linked, that is if the
//! last kept flow of the pair left the current version of its source. So a flow costs a fixed number of look-ups.
#![tactic(auto)]

mod full;
mod laws;

pub use full::Full;
pub use laws::full_mode_loses_later_starts;
