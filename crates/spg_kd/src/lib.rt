//! The k-d tree class: an inner tuple divides the plane at a coordinate, y and x by turns.
#![tactic(auto)]

mod class;
mod division;
mod half;

pub use class::{Kd, KdRecon};
pub use half::nodes_at;
