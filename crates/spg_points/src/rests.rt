ghost use Rattle.std.specs.Prelude.{◌≡◌, IfOk};
ghost use Rattle.std.specs.List.{list_all};
ghost use Rattle.spg_base.specs.Points.{cond_holds};

use spg_base::{Bytes, List, Memory, Point, PointCond, Same};
use std::alloc::Global;

/// An equal list of rests.
pub fn copy_all(alloc: Global, rests: &[Bytes]) -> Result<List<Bytes>, Memory>
    ensures { IfOk result (λ copies. copies ≡ rests.now) }
{
    let mut copies = List::new(alloc);
    for rest in rests {
        copies.push(rest.copy()?)?;
    }
    Ok(copies)
}

/// Whether every condition holds of the point.
pub fn all_hold(conds: &[PointCond], p: Point) -> bool
    ensures { result ≡ list_all (λ c. cond_holds c p) conds.now }
{
    conds.iter().all(|c| c.holds(p))
}
