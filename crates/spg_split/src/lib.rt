//! The division of leaves as the class of their keys answers (PostgreSQL 16 manual, chapter SP-GiST,
//! "picksplit").
#![tactic(auto)]

mod at_root;
mod below;
mod bunch;
mod chain;
mod division;
mod homes;
mod parts;
mod placing;
mod plan;
mod put;
mod root;
mod rows;
mod split;
mod write;

pub use bunch::bunch_at;
pub use division::{Division, divide_rests};
pub use parts::inner_tuple;
pub use split::{SplitOut, split_leaf};
