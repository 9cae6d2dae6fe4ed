//! Images: the pages of an index as bytes under a name.
#![tactic(auto)]

mod blocks;
mod class;
mod loading;
mod numbers;
mod refused;
mod saving;

pub use class::ImageClass;
pub use loading::{load, verify};
pub use refused::SaveRefused;
pub use saving::{save, save_table};
pub use spg_verify::{ImageRefused, Verified};
