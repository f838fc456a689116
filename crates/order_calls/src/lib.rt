//! The call of a line, and whether it may have waited for what it took.
//!
//! A read of a pipe, a socket or a terminal waits until there is something to read, one of a regular file doesn't. Which
//! descriptor is a regular file is known by the lines before: by the opens of its process, whose PATH records have the
//! file's mode, and by what the process did to the descriptor since. A child inherits what its parent is known to hold.
#![tactic(auto)]

mod call;
mod deed;
mod files;
mod held;
mod minor;
mod mode;
mod reading;

pub use call::{Call, Takes};
pub use deed::Deed;
pub use files::Files;
pub use reading::read_call;
