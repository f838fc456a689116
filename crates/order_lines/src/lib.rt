//! Rules that rewrite a line by what it says alone, so that the main program sees what really met.
//!
//! A call of the 32-bit gate gets the number of the 64-bit call with the same arguments. An address of the kernel in a netlink
//! socket becomes no address: else all processes that ask the kernel would meet in one object. A path's record may name a descriptor. A
//! fork in a pid namespace gets the number that its child has outside, which lines of the child say.
#![tactic(auto)]

mod address;
mod answer;
mod call;
mod gate;
mod own;
mod rules;

pub use answer::with_answer;
pub use own::{Own, names_own, own_in};
pub use rules::{Settings, rewrite_of};
