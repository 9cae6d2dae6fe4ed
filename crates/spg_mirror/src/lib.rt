//! The commands of a script done on an index whose searches a standby answers.
#![tactic(auto)]

mod find;
mod outcomes;
mod performing;
mod rest;
mod writes;

pub use performing::perform_on;
