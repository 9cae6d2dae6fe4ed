ghost use Rattle.std.specs.Prelude.{◌≡◌, ◌<◌, ◌^◌, pos, length, replicate, IfOk};
ghost use Rattle.std.specs.List.{list_all};
ghost use Rattle.std.specs.Ordering.{int_eq};
ghost use Rattle.spg_points.specs.Areas.{is_wanted, kept_by};
ghost use Rattle.spg_points.specs.PointClass.{count_ok, plain_nodes};

use crate::area::Area;
use smallvec::SmallVec;
use spg_base::{Labels, Memory, PointCond};
use spg_opclass::InnerView;
use std::alloc::Global;

/// The areas that the nodes of a tuple stand for.
pub trait NodeAreas {
    ghost use Rattle.std.specs.Prelude.{ℕ};
    ghost use Rattle.spg_points.specs.declared.area.Area.{Area};

    ghost area_of_node: { Self → ℕ → Area };

    /// The points that the node admits.
    fn at(&self, node: u16) -> Area
        ensures { result ≡ area_of_node self.now node };
}

/// The nodes below `count` in whose area each condition is met by some point, in order.
pub fn kept_nodes<A: NodeAreas>(
    alloc: Global,
    areas: &A,
    count: usize,
    conds: &[PointCond],
) -> Result<SmallVec<u16, 8>, Memory>
    requires { count < 2 ^ 16 }
    ensures { IfOk result (λ kept. kept.items ≡ kept_by (A.area_of_node areas.now) conds.now count) }
{
    let mut kept = SmallVec::new(alloc);
    for node in 0..count {
        if is_wanted(areas.at(node as u16), conds) {
            kept.push(node as u16)?;
        }
    }
    Ok(kept)
}

/// Whether each condition is met by some point of the area.
#[tactic(auto, unfolding(crate::specs::Areas::is_wanted))]
fn is_wanted(area: Area, conds: &[PointCond]) -> bool
    ensures { result ≡ is_wanted area conds.now }
{
    conds.iter().all(|cond| area.meets(Area::of(*cond)))
}

/// Whether the labels are those of a class without labels: 0 each, and 8 of them in an all-the-same
/// tuple, else `count`.
#[tactic(auto, unfolding(crate::specs::PointClass::plain_nodes))]
pub fn labels_ok(tuple: &InnerView, count: usize) -> bool
    ensures { result ≡ plain_nodes count tuple.now }
{
    all_zero(tuple.labels.as_slice()) && is_count(tuple.all_same, tuple.labels.len(), count)
}

fn all_zero(labels: &[i16]) -> bool
    ensures { result ≡ list_all (λ l. int_eq l (pos 0)) labels.now }
{
    labels.iter().all(|label| *label == 0)
}

#[tactic(auto, unfolding(crate::specs::PointClass::count_ok))]
fn is_count(all_same: bool, found: usize, count: usize) -> bool
    ensures { result ≡ count_ok count all_same found }
{
    if all_same { found == 8 } else { found == count }
}

/// As many labels of 0.
pub fn zero_labels(alloc: Global, count: u16) -> Result<Labels, Memory>
    ensures { IfOk result (λ labels. labels ≡ replicate count (pos 0)) }
{
    let mut labels = Labels::new(alloc);
    for _ in 0..count {
        labels.push(0)?;
    }
    Ok(labels)
}
