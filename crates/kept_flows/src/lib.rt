//! The flows of a log, kept as the rows of a mode.
//!
//! A reducer decides of each flow that comes whether it makes a row, goes on with one or is dropped, and the rows hold
//! what is kept. Together they stand for all flows: each answer to a question that the mode allows is the answer over all
//! flows, which are kept nowhere.
#![tactic(auto)]

mod kept_flows;
mod laws;
mod one_flow;
mod one_path;
mod one_question;
mod restoring;

pub use kept_flows::KeptFlows;
pub use laws::flows_that_come_next_may_be_taken;
pub use one_path::Way;
pub use restoring::Unrestored;
