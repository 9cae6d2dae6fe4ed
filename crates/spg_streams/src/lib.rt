//! The script and the text of a run as streams: a script is read whole, a text is written line by line.
#![tactic(auto)]

mod stream;
mod summary;
mod writing;

pub use stream::{ReadRefused, read_all};
pub use summary::write_summary;
pub use writing::{write_line, write_text};
