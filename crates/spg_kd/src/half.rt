ghost use Rattle.std.specs.Prelude.{◌≡◌};
ghost use Rattle.spg_opclass.specs.InPlace.{shown};
ghost use Rattle.spg_points.specs.PointClass.{node_area, node_for};
ghost use Rattle.spg_kd.specs.Kd.{kd, half, half_for, level_of, nodes_area};

use crate::class::KdRecon;
use spg_base::Point;
use spg_opclass::InnerRef;
use spg_points::{Area, NodeAreas, coordinate, decode};

/// The coordinate that a level looks at.
pub fn level(odd: bool, p: Point) -> i32
    ensures { result ≡ level_of odd p }
{
    if odd { p.x } else { p.y }
}

/// The node of a point where the plane is divided at `cut`.
#[tactic(auto, unfolding(crate::specs::Kd::half_for))]
fn node_of(odd: bool, cut: i32, p: Point) -> u16
    ensures { result ≡ half_for odd cut p }
{
    if level(odd, p) < cut { 0 } else { 1 }
}

/// The points of a node where the plane is divided at `cut`.
#[tactic(auto, unfolding(crate::specs::Kd::half))]
fn half_of(odd: bool, cut: i32, node: u16) -> Area
    ensures { result ≡ half odd cut node }
{
    let cut = cut as i64;
    let whole = Area::whole();
    if odd {
        if node == 0 {
            Area {
                x_high: cut,
                ..whole
            }
        } else {
            Area {
                x_low: cut,
                ..whole
            }
        }
    } else if node == 0 {
        Area {
            y_high: cut,
            ..whole
        }
    } else {
        Area {
            y_low: cut,
            ..whole
        }
    }
}

/// The nodes of a tuple.
#[derive(Clone, Copy)]
pub struct KdNodes {
    all_same: bool,
    odd: bool,
    cut: i32,
}

impl NodeAreas for KdNodes {
    ghost use Rattle.spg_kd.specs.Kd.{nodes_area};

    ghost area_of_node = { nodes_area };

    #[tactic(auto, unfolding(crate::specs::Kd::nodes_area))]
    fn at(&self, node: u16) -> Area {
        if self.all_same {
            Area::whole()
        } else {
            half_of(self.odd, self.cut, node)
        }
    }
}

/// The nodes of a tuple.
#[tactic(auto, unfolding(crate::specs::Kd::nodes_area, spg_points::specs::PointClass::node_area))]
pub fn nodes_at(recon: KdRecon, tuple: &InnerRef<'_>) -> KdNodes
    ensures { nodes_area result ≡ node_area kd recon (shown tuple.now) }
{
    KdNodes {
        all_same: tuple.all_same,
        odd: recon.odd,
        cut: coordinate(tuple.prefix, 0),
    }
}

/// The node to which a rest goes: the first one where the tuple is all-the-same.
#[tactic(auto, unfolding(spg_points::specs::PointClass::node_for))]
pub fn choose_node(recon: KdRecon, tuple: &InnerRef<'_>, rest: &[u8]) -> u16
    ensures { result ≡ node_for kd recon (shown tuple.now) rest.now }
{
    if tuple.all_same {
        0
    } else {
        node_of(recon.odd, coordinate(tuple.prefix, 0), decode(rest))
    }
}
