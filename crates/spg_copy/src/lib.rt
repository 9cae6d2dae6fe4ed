//! A copy of a table of pages, on which no seat holds a block.
#![tactic(auto)]

mod copying;

pub use copying::copy_table;
