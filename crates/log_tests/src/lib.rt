//! The tests of the libraries that take in a log. They stand in a crate of their own, since a crate with tests is
//! proved twice.
#![tactic(auto)]

#[cfg(test)]
mod calls;
#[cfg(test)]
mod cutting;
#[cfg(test)]
mod descriptors;
#[cfg(test)]
mod generated_logs;
#[cfg(test)]
mod joining;
#[cfg(test)]
mod lexing;
#[cfg(test)]
mod lives;
#[cfg(test)]
mod looking_back;
#[cfg(test)]
mod names;
#[cfg(test)]
mod objects;
#[cfg(test)]
mod records;
#[cfg(test)]
mod tables;
