//! Questions, the rows that answer them, and the traits that the modes and the stores of rows have: a `Reducer` decides
//! what becomes of each flow, and a `Keep` holds the resulting rows.
//!
//! A row stands for the flows of one pair of objects from a first one to a last one. Contracts see the rows of an
//! object as a list, if the object is observable, and a reducer as tables that stand for such a list. So a mode's
//! proof never speaks of where rows are kept, and a search over rows never speaks of a mode.
#![tactic(auto)]

mod index48;
mod laws;
mod objects;
mod packed;
mod packed_objects;
mod plain;
mod questions;
mod reducer;
mod rows;
mod steps;
mod vec_rows;

pub use laws::{
    first_flows_are_told, verdicts_make_the_rows, what_is_allowed_is_answerable,
    what_is_allowed_is_answered,
};
pub use objects::{Object, enter, last_from_of, last_into_of, leave};
pub use plain::Plain;
pub use questions::{First, Question, starts_by};
pub use reducer::Reducer;
pub use rows::{Keep, Mark, Row, RowFault, Rows};
pub use steps::Steps;
pub use vec_rows::VecRows;
