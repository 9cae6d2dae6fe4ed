//! Calls of an index, for tests: each is done where the seat has open what the call asks for, and answers
//! None where not. So they have no conditions, and their callers no proofs.

mod inserts;
mod scans;
mod vacuums;

pub use inserts::{insert, insert_or_give_up, insert_step, insert_through, kill, open_insert};
pub use scans::{close_scan, open_scan, scan_read};
pub use vacuums::{give_up, open_vacuum, vacuum_step};
