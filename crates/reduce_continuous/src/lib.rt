//! Continuous mode: flows between the same two objects share a row while nothing flows into their source or out of their
//! target.
//!
//! The tables keep the last row of each pair with the place of its last flow, and the places of the last flows into and
//! out of each object. A flow extends the last row of its pair if neither the last flow into its source nor the
//! last one out of its target comes after that row's last flow. So a flow costs a few look-ups, whatever was kept before.
#![tactic(auto)]

mod places;
mod tables;

pub use tables::Continuous;
