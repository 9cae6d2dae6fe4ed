ghost use Rattle.std.specs.Prelude.{◌≡◌};
ghost use Rattle.spg_base.specs.Points.{is_between};
ghost use Rattle.spg_points.specs.Areas.{area_of, areas_meet, in_area, ranges_meet, whole};

use spg_base::{Point, PointCond};

/// The points of a range of x and a range of y, both ends within. A range whose low end is above
/// its high end has no points. The ends are wider than coordinates, so that "left of the lowest"
/// is an area too.
#[derive(Clone, Copy, Debug, PartialEq, Eq)]
pub struct Area {
    pub x_low: i64,
    pub x_high: i64,
    pub y_low: i64,
    pub y_high: i64,
}

const LOWEST: i64 = i32::MIN as i64;

const HIGHEST: i64 = i32::MAX as i64;

impl Area {
    /// Every point.
    pub fn whole() -> Area
        ensures { result ≡ whole }
    {
        Area {
            x_low: LOWEST,
            x_high: HIGHEST,
            y_low: LOWEST,
            y_high: HIGHEST,
        }
    }

    /// The points of which the condition holds.
    pub fn of(cond: PointCond) -> Area
        ensures { result ≡ area_of cond }
    {
        let whole = Area::whole();
        match cond {
            PointCond::Eq(q) => Area {
                x_low: q.x as i64,
                x_high: q.x as i64,
                y_low: q.y as i64,
                y_high: q.y as i64,
            },
            PointCond::Left(x) => Area {
                x_high: x as i64 - 1,
                ..whole
            },
            PointCond::Right(x) => Area {
                x_low: x as i64 + 1,
                ..whole
            },
            PointCond::Below(y) => Area {
                y_high: y as i64 - 1,
                ..whole
            },
            PointCond::Above(y) => Area {
                y_low: y as i64 + 1,
                ..whole
            },
            PointCond::Inside { x1, y1, x2, y2 } => Area {
                x_low: x1 as i64,
                x_high: x2 as i64,
                y_low: y1 as i64,
                y_high: y2 as i64,
            },
        }
    }

    /// Whether the two have a point in common.
    pub fn meets(self, other: Area) -> bool
        ensures { result ≡ areas_meet self other }
    {
        range_meets(self.x_low, self.x_high, other.x_low, other.x_high)
            && range_meets(self.y_low, self.y_high, other.y_low, other.y_high)
    }

    /// Whether the point is one of the area.
    pub fn has(self, p: Point) -> bool
        ensures { result ≡ in_area self p }
    {
        is_between(self.x_low, p.x as i64, self.x_high)
            && is_between(self.y_low, p.y as i64, self.y_high)
    }
}

#[tactic(auto, unfolding(crate::specs::Areas::ranges_meet))]
fn range_meets(a_low: i64, a_high: i64, b_low: i64, b_high: i64) -> bool
    ensures { result ≡ ranges_meet a_low a_high b_low b_high }
{
    a_low.max(b_low) <= a_high.min(b_high)
}

#[tactic(auto, unfolding(spg_base::specs::Points::is_between))]
fn is_between(low: i64, z: i64, high: i64) -> bool
    ensures { result ≡ is_between low z high }
{
    low <= z && z <= high
}
