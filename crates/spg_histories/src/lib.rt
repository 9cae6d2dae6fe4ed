//! What a run of a script is.
#![tactic(auto)]

mod laws;
mod status;

pub use laws::{
    calls_compose, causes_grow, one_seat_meets, runs_grow, runs_tell, script_says_all,
    statuses_tell, text_says_all,
};
pub use status::Status;
