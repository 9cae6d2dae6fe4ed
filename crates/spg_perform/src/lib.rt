//! The commands of a script, done on the state: those of lanes beside each other, all others one after
//! another.
#![tactic(auto)]

mod answers;
mod blocks;
mod command;
mod count;
mod delete;
mod find;
mod insert;
mod lane;
mod near;
mod position;
mod post;
mod save;
mod script;
mod stat;
mod together;
mod vacuum;

pub use script::perform;
pub use spg_commands::Gate;
pub use spg_served::Served;
