//! Flows from events, by tables of lives, descriptors, addresses, births and objects.
//!
//! An event is prepared first, which takes all the memory that it needs, and then applied, which cannot fail.
#![tactic(auto)]

mod acting;
mod added;
mod births;
mod change;
mod draft;
mod effects;
mod filled;
mod given;
mod laws;
mod lives;
mod naming;
mod parts;
mod passes;
mod plan;
mod rows;
mod seeing;
mod since;
mod slots;
mod steps;
mod tables;
mod work;

pub use acting::Acting;
pub use births::Births;
pub use change::Change;
pub use given::Given;
pub use laws::{a_see_starts_the_process, calm_acts_leave_the_process};
pub use plan::{NewAddress, Plan};
pub use rows::TableRows;
pub use tables::Tables;
