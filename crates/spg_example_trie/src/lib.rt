//! An operator class of one's own, to copy from: whole numbers of 64 bits in a binary trie by their
//! leading bits, found by `eq` and `between`. docs/CLASSES.md goes through it step by step.
#![tactic(auto)]

mod class;
mod number;
mod trie;

pub use class::{NumberRecon, Numbers};
pub use number::{Number, NumberCond};
