ghost use Rattle.std.specs.Prelude.{◌≡◌};
ghost use Rattle.spg_opclass.specs.InPlace.{shown};
ghost use Rattle.spg_points.specs.PointClass.{node_area, node_for};
ghost use Rattle.spg_quad.specs.declared.class.QuadRecon.{QuadRecon as Recon};
ghost use Rattle.spg_quad.specs.Quad.{quad, quadrant, region, nodes_area};

use spg_base::Point;
use spg_opclass::InnerRef;
use spg_points::{Area, NodeAreas, decode};

const LOWEST: i64 = i32::MIN as i64;

const HIGHEST: i64 = i32::MAX as i64;

/// The node of a point below a centroid.
#[tactic(auto, unfolding(crate::specs::Quad::quadrant))]
pub fn node_of(c: Point, p: Point) -> u16
    ensures { result ≡ quadrant c p }
{
    if c.x <= p.x {
        if c.y <= p.y { 0 } else { 1 }
    } else if p.y <= c.y {
        2
    } else {
        3
    }
}

/// The points of a node below a centroid.
#[tactic(auto, unfolding(crate::specs::Quad::region))]
pub fn region_of(c: Point, node: u16) -> Area
    ensures { result ≡ region c node }
{
    let x = c.x as i64;
    let y = c.y as i64;
    match node {
        0 => Area {
            x_low: x,
            x_high: HIGHEST,
            y_low: y,
            y_high: HIGHEST,
        },
        1 => Area {
            x_low: x,
            x_high: HIGHEST,
            y_low: LOWEST,
            y_high: y - 1,
        },
        2 => Area {
            x_low: LOWEST,
            x_high: x - 1,
            y_low: LOWEST,
            y_high: y,
        },
        _ => Area {
            x_low: LOWEST,
            x_high: x - 1,
            y_low: y + 1,
            y_high: HIGHEST,
        },
    }
}

/// The nodes of a tuple.
#[derive(Clone, Copy)]
pub struct QuadNodes {
    all_same: bool,
    centroid: Point,
}

impl NodeAreas for QuadNodes {
    ghost use Rattle.spg_quad.specs.Quad.{nodes_area};

    ghost area_of_node = { nodes_area };

    #[tactic(auto, unfolding(crate::specs::Quad::nodes_area))]
    fn at(&self, node: u16) -> Area {
        if self.all_same {
            Area::whole()
        } else {
            region_of(self.centroid, node)
        }
    }
}

/// The nodes of a tuple.
#[tactic(auto, unfolding(crate::specs::Quad::nodes_area, spg_points::specs::PointClass::node_area))]
pub fn nodes_at(tuple: &InnerRef<'_>) -> QuadNodes
    ensures { (recon : Recon) → nodes_area result ≡ node_area quad recon (shown tuple.now) }
{
    QuadNodes {
        all_same: tuple.all_same,
        centroid: decode(tuple.prefix),
    }
}

/// The node to which a rest goes: the first one where the tuple is all-the-same.
#[tactic(auto, unfolding(spg_points::specs::PointClass::node_for))]
#[inline(always)]
pub fn choose_node(tuple: &InnerRef<'_>, rest: &[u8]) -> u16
    ensures { (recon : Recon) → result ≡ node_for quad recon (shown tuple.now) rest.now }
{
    if tuple.all_same {
        0
    } else {
        node_of(decode(tuple.prefix), decode(rest))
    }
}
