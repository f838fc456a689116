//! The check of a store, batch by batch: each row against all rows of the store before it.
//!
//!     what           what is asked of it
//!     a batch        tags never fall; its one State is its last row
//!     Entity         a new key, within their limit; at the batch's end a Kept row names it
//!     Kept           two different ends, which are objects, numbered as they are named, the source
//!                    first; a greater place and no smaller time than the Kept row before it; links
//!                    to the last Kept rows with its target and with its source
//!     Extend         continuous mode, ascending by row, later than the last flow of its row
//!     Life, Held,    ascending by pid; by pid and descriptor; by act; by device and inode. A Held
//!     Address, Born  row is of a pid whose last life is live
//!     Waiting        ascending by time and serial, 1 to `records` lines
//!     State          numbers that go with each other and with the numbers of all rows before it
//!
//! The conditions are definitions over lists of rows (`Continues`). The checker goes forward once
//! and keeps tables, which stand for the rows taken so far.
#![tactic(auto)]

mod check;
mod ends;
mod listed;
mod numbers;
mod order;

pub use check::StoreCheck;
