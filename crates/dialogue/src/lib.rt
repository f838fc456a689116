//! A dialogue over a log: questions are heard line by line, each is answered by an engine, and each reply is written.
//!
//! The engine keeps its rows in memory or in a store, and `Saves` says what a save then does: nothing, or all that came goes
//! on the disk. A dialogue is the same code over both. specs/ says what a dialogue is by looking back over the whole list
//! of its questions.
#![tactic(auto)]

mod halt;
mod hear;
mod listen;
mod log;
mod saving;
mod session;
mod turn;

pub use halt::{Halt, StoreHalt, halt_of, halt_of_ask, halt_of_open, halt_of_restore, halted};
pub use listen::watch;
pub use log::pass_over;
pub use saving::{Saves, settle_all, take};
pub use session::{PIECE, Session, room_for_a_read};
pub use turn::{answer, reply_of, say, settle};
