//! Objects by number, and the names of keys.
//!
//! A key is numbered when it is entered, from 0 on, and a key that was entered keeps its number. Names are kept for
//! keys that have no number yet too. Room can be made before, and calls within it take no memory.
#![tactic(auto)]

mod entities;
mod key_names;
mod saving;

pub use entities::Entities;
pub use key_names::Named;
