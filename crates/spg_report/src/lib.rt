//! The printed text of a run: what became of each command, and what each event did.
#![tactic(auto)]

mod events;
mod laws;
mod line;
mod outcome;
mod record;
mod results;
mod values;

pub use events::{event_line, push_event};
pub use laws::plain_without_values;
pub use line::Line;
pub use outcome::Outcome;
pub use record::{Record, Records};
pub use results::{
    push_journal, push_plain_result, push_result, push_stat, result_line, stat_line,
};
pub use values::push_valued_result;
