//! What a call of one seat is, in a journal that other seats write too.
#![tactic(auto)]

mod laws;

pub use laws::{call_laws, doing_laws};
