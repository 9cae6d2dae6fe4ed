//! Laws of walks: each query has just one over a well formed index, and how many tuples it meets fits in 64 bits.
#![tactic(auto)]

ghost use Rattle.spg_walks.specs.Walks.{EachHasAWalk};

use spg_opclass::OpClass;

/// Of each query there is just one number of tuples that a scan of the index at rest meets, and it is
/// below 2^64 - 1: no place is met twice.
pub fn walk_laws<O: OpClass>()
    ensures { EachHasAWalk O O.Key O.Recon O.Cond O.meaning }
{}
