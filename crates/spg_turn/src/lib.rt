//! A counted lock round a state that keeps a journal. Who takes the lock has a pass, which knows
//! what it has seen of the journal and what it has added.
#![tactic(auto)]

mod pass;
mod rule;
#[cfg(test)]
mod tests;
mod turn;

pub use pass::{Held, Pass};
pub use turn::Turn;
