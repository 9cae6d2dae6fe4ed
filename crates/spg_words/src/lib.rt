//! The words of a command line, and what they ask for.
#![tactic(auto)]

mod build_line;
mod check_line;
mod laws;
mod load;
mod load_line;
mod option_name;
mod run_line;
mod standby_line;
mod words;

pub use build_line::{BuildLine, build_of};
pub use check_line::check_of;
pub use laws::lines_are_exact;
pub use load::Load;
pub use load_line::load_of;
pub use run_line::{RunLine, USUAL_PAGES, run_of};
pub use standby_line::{StandbyLine, standby_of};
