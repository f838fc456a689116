//! Lines as they are written, with times that never fall and some parts rewritten, and how they are read again as they were.
//!
//!     type=SYSCALL msg=audit(1780992070.001:10115): .. <1D>WAS={ audit(1780992064.424:10115) }
//!     type=SOCKADDR msg=audit(1780992070.001:10116): saddr=0100<1D>WAS={ audit(1780992070.001:10116) 12 : saddr=10000000.. }
//!
//! A time that is raised is kept in a mark at the end of its line, after the byte 0x1D, and the serial number stays. So is a
//! part that is rewritten, with the count of the bytes in its place. `undo` gives the line again, byte by byte.
#![tactic(auto)]

mod cut;
mod laws;
mod mark;
mod one_line;
mod restore;
mod rewrite;
mod stamp;
mod write;

pub use cut::at_first;
pub use laws::{
    rewritten_lines_are_told, written_lines_are_one_line, written_lines_are_undone,
    written_lines_bear_their_stamp,
};
pub use one_line::is_one_line;
pub use restore::{undo, write_undone};
pub use rewrite::Rewrite;
pub use stamp::{Stamp, read_stamp};
pub use write::write_stamped;
