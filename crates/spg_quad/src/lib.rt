//! The quad tree class: an inner tuple divides the plane at a centroid into four quadrants.
#![tactic(auto)]

mod class;
mod division;
mod quadrant;

pub use class::{Quad, QuadRecon};
pub use division::centroid;
pub use quadrant::{node_of, nodes_at, region_of};
