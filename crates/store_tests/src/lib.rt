//! The tests of the libraries that keep flows, answer questions and store. They stand in a crate of their own, since a
//! crate with tests is proved twice.
#![tactic(auto)]

#[cfg(test)]
mod batches;
#[cfg(test)]
mod cached_questions;
#[cfg(test)]
mod conditions;
#[cfg(test)]
mod devices;
#[cfg(test)]
mod engine;
#[cfg(test)]
mod engine_over_a_store;
#[cfg(test)]
mod full_mode;
#[cfg(test)]
mod kept;
#[cfg(test)]
mod questions_and_replies;
#[cfg(test)]
mod rows;
#[cfg(test)]
mod source_mode;
#[cfg(test)]
mod stores;
#[cfg(test)]
mod versions;
