//! The sections of an index, and the journal of all that was done.
#![tactic(auto)]

mod answer;
mod bare;
mod bare_inserts;
mod bare_scans;
mod bare_vacuums;
mod choose;
mod comparing;
mod found;
mod guide;
mod inner;
mod insert;
mod kept;
mod kept_inserts;
mod kept_scans;
mod kept_vacuums;
mod latches;
mod laws;
mod loading;
mod look;
mod operations;
mod recorded;
mod sifting;
mod slot;
mod stat;
mod state;
mod sweeping;
mod through;
mod vacuums;
mod waiting;

pub use answer::{InsertOut, InsertRan, OpenKind, OpenRefused, VacuumOut, VacuumRefused};
pub use bare::Bare;
pub use laws::{bound_laws, call_laws, seen_laws};
pub use look::{ApplyRefused, Look};
pub use spg_scan::{Closed, ReadOut, ScanCopy, SiftRefused};
pub use spg_tree::StepRefused;
pub use stat::stat_of;
pub use state::State;
