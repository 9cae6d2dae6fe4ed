//! The rows nearest to a point, by one call, of an index that no one else uses meanwhile.
#![tactic(auto)]

mod nearest;

pub use nearest::{Nearest, find_nearest};
