//! Which key a row was inserted with, as of each position of a journal.
#![tactic(auto)]

mod inserts;
mod opening;

pub use inserts::Inserts;
