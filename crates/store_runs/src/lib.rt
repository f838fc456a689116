//! Runs over a store: a log is taken into it, as a whole or as questions ask for it, or questions are answered over what it
//! has; and how a run ended, as a number and a text.
//!
//! specs/ says what is on the disk at each moment of a run, what a crash leaves of it, and which store is refused.
#![tactic(auto)]

mod extending;
mod laws;
mod queries;
mod ran;
mod status;

pub use extending::{Taking, extend};
pub use laws::stopped_runs_go_on;
pub use queries::query;
pub use ran::Ran;
pub use status::{
    LINE, Status, name_of_mode, status_line, status_number, status_of, status_over_store,
};
