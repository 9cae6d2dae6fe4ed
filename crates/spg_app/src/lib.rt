//! The program: a script in, the text of its run out.
#![tactic(auto)]

mod beginning;
mod build;
mod by_class;
mod check;
mod classes;
mod end_state;
mod farewell;
mod generated;
mod laws;
mod program;
mod session;
mod standby;

pub use end_state::EndState;
pub use farewell::{Farewell, last_words};
pub use laws::runs_say_all;
pub use program::run;
pub use spg_histories::Status;
pub use spg_perform::Gate;
pub use spg_script::BadLine;
