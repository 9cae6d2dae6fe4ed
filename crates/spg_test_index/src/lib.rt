//! Tests of whole indexes: calls of several seats with what each answers, sections of inserts that divide
//! roots and chains, scans that hold much, a tree of many levels, an index whose class is asked on copies, a
//! vacuum beside inserts that move the chains which it still has to see, and 64 seats whose sections come in
//! an order that a seed gives. For other tests: calls without conditions, and a judge of journals, which
//! replays them over a plain list of lives.
#![tactic(auto)]

#[cfg(test)]
mod answers;
pub mod calls;
#[cfg(test)]
mod copies;
#[cfg(test)]
mod deep;
#[cfg(test)]
mod divides;
#[cfg(test)]
mod driver;
#[cfg(test)]
mod held;
#[cfg(test)]
mod lent;
mod lives;
#[cfg(test)]
mod moves;
mod replay;
#[cfg(test)]
mod seats;
#[cfg(test)]
mod turns;
#[cfg(test)]
mod values;

pub use replay::{Replayed, judge};
