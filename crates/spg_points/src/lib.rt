//! What the classes of points share: the bytes of a point, areas of the plane, and the nodes that
//! a query visits.
#![tactic(auto)]

mod area;
mod codec;
mod height;
mod nodes;
mod rests;

pub use area::Area;
pub use codec::{coordinate, decode, encode, encode_coordinate};
pub use height::{lower, raise};
pub use nodes::{NodeAreas, kept_nodes, labels_ok, zero_labels};
pub use rests::{all_hold, copy_all};
