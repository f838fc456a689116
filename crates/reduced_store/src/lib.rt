//! The rows of a store, and opening a disk as a store.
//!
//! A disk is read batch by batch (`read_store`): its bytes as batches, each payload as rows, and each
//! batch against all batches before it. The result are the kept rows (`StoreRows`), from which
//! questions are answered and to which a reducer adds, and the rows from which tables are filled.
//!
//! The kept rows of a batch that was read aren't held in memory. Held are their places on the disk,
//! what is known of their objects, and the rows of tables. So a `Store` is a disk with its log, where its
//! rows stand, and the rows since the last commit. A question reads the rows that it needs from the disk.
//! A commit puts the rows since the last one on the disk, and from then on they are read from there too.
//!
//! The conditions on a store let two rows have one last place, which the laws of rows forbid. No log
//! leaves such a store, since rows that a mode keeps are lawful. It is refused when it is opened, so the
//! rows of a `Store` are lawful if its disk is observable.
#![tactic(auto)]

mod apart;
mod laws;
mod open;
mod opened;
mod picking;
mod reading;
mod rows;
mod spelling;
mod store;
mod taking;

pub use laws::{
    a_commit_by_rows_is_that_of_its_moments, a_store_is_no_bad_store, a_store_reads_in_one_way,
    others_say_what_all_rows_say, rows_of_a_mode_are_apart, what_is_found_can_be_restored,
    what_is_found_was_stored,
};
pub use open::{StoreRead, read_store};
pub use opened::{OpenFault, Opened, Unopened};
pub use reading::Found;
pub use rows::StoreRows;
pub use store::Store;
