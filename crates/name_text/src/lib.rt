//! Names as texts: the path that a call names, a socket's address, the key of an object, and the label of any bytes.
#![tactic(auto)]

mod addresses;
mod keys;
mod labels;
mod laws;
mod paths;
mod pieces;

pub use addresses::{address_key, address_text};
pub use keys::key_text;
pub use labels::label;
pub use laws::{
    a_way_up_takes_a_name_back, absolute_names_stand_alone, tidied_paths_have_names,
    tidied_paths_stay,
};
pub use paths::join_path;
