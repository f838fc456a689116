//! Lines that wait for their turn: the least place is taken first, and the bytes of all of them are counted. What was read of a
//! line when it came waits with it.
#![tactic(auto)]

mod entry;
mod heap;
mod marks;
mod noted;
mod queue;
mod row;
mod waiting;

pub use marks::{Marks, marks_of};
pub use noted::Noted;
pub use queue::Queue;
pub use waiting::Waiting;
