//! What reaches an object, what it reaches, and by which path, by walks that follow the links of rows.
//!
//! A row names the row before it into the same object, and the row before it out of the same object. So a walk backward
//! reads only rows that enter the objects of its answer, and a walk forward only rows that leave them. Backward a row
//! counts as its first flow and forward as its last one, and each walk goes in the order of these flows.
#![tactic(auto)]

mod arrivals;
mod back;
mod bits;
mod candidates;
mod fault;
mod fore;
mod links;
mod marks;
mod page;
mod queue;
mod slots;
mod way_back;
mod way_fore;
mod way_to;

pub use back::backward;
pub use fault::WalkFault;
pub use fore::forward;
pub use way_to::path;
