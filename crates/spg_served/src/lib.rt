//! What the classes of scripts serve beside their index: the rows nearest to a point, where keys are
//! points.
#![tactic(auto)]

mod others;
mod points;
mod served;

pub use served::Served;
pub use spg_nearest::Nearest;
