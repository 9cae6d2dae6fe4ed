//! Moves of chains and of inner tuples, with redirects in their old places, and splits of inner
//! tuples (`src/backend/access/spgist/README`).
#![tactic(auto)]

mod chain;
mod moving;
mod node;
mod node_tuple;
mod node_write;
mod split;
mod split_pages;
mod split_tuples;

pub use chain::move_chain;
pub use node::add_node;
pub use split::split_tuple;
