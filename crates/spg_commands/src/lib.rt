//! One command of a script, whoever does it: the class's keys and conditions for it, the book of its record,
//! and what watches a run.
#![tactic(auto)]

mod asking;
mod book;
mod gate;

pub use asking::{key_in, query_in};
pub use book::Book;
pub use gate::Gate;
