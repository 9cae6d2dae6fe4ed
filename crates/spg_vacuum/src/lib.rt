//! The sections of an open vacuum, and the places that it has still to see.
#![tactic(auto)]

mod done;
mod handle;
mod latch;
mod laws;
mod pending;
mod place;
mod vacuum;

pub use done::{Done, Work};
pub use laws::vacuum_laws;
pub use vacuum::Vacuum;
