//! An index created at once from the inserts of a script, and saved.
#![tactic(auto)]

mod keeping;
mod refused;
mod whole;

pub use refused::CreateRefused;
pub use whole::{Created, create};
