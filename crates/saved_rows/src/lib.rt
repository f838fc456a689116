//! Rows of a store that stay on its disk, and are read from there one by one.
//!
//! A Kept row has 46 bytes, and those of a batch stand one after the other. So where the Kept row of
//! a row stands follows from where the first one of its batch does. Its last flow is that of its last
//! Extend row, if it has one, and then the place of that is listed. All else is read from the disk when
//! it is asked for, through a cache of blocks.
//!
//! `SavedRows` are the rows that the disk has. `DiskRows` are these and those since the last commit, with
//! a list of the first that only proofs have (`Remembered`), so that clauses can say which rows they are.
#![tactic(auto)]

mod disk_rows;
mod extending;
mod laws;
mod reading;
mod remembered;
mod runs;
mod saved;
mod settling;

pub use disk_rows::DiskRows;
pub use laws::{rows_of_a_payload_stand_in_a_row, saved_rows_outlive_commits};
pub use remembered::Remembered;
pub use runs::Run;
pub use saved::SavedRows;
