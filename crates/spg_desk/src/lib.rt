//! An index that threads share: whole calls, each done in sections under a counted lock.
#![tactic(auto)]

mod answer;
mod copying;
mod desk;
mod ended;
mod find;
mod give_up;
mod insert;
mod kill;
mod looked;
mod looking;
mod near;
mod pass;
mod put;
mod scan;
mod span;
mod turns;
mod vacuum;

pub use answer::{FindAnswer, InsertAnswer, KillAnswer, NearAnswer, VacuumAnswer};
pub use desk::Desk;
pub use looked::{HeldAnswer, KeyAnswer, PagesAnswer, StatAnswer};
pub use pass::Pass;
