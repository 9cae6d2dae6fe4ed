//! Searches that add nothing to the journal: they only read the index, and many threads may at once. At most so many
//! rows of those that a query asks for, as they are found.
#![tactic(auto)]

mod read;
mod reader;
mod some;

pub use reader::Reader;
pub use some::find_some;
