// Queries of one condition.
ghost use Rattle.std.specs.Prelude.{◌≡◌, ◌∷◌, [], IfOk};
ghost use Rattle.spg_base.specs.declared.point.PointCond.TheVariants.{Eq, Inside};
ghost use Rattle.spg_opclass.specs.declared.query.Query.TheVariants.{Where};
ghost use Rattle.spg_radix.specs.declared.condition.TextCond.TheVariants.{Starts};

use spg_base::{List, Memory, Point, PointCond};
use spg_opclass::{OpClass, Query};
use spg_radix::{ByteText, TextCond};
use std::alloc::Global;

/// The most pages of an index where nothing else is said: 512 MiB.
pub const DEFAULT_LIMIT: u32 = 65_536;

/// The rows whose key meets a condition.
pub fn one<O: OpClass>(alloc: Global, cond: O::Cond) -> Result<Query<O>, Memory>
    ensures { IfOk result (λ query. query ≡ Where (cond ∷ [])) }
{
    let mut conds = List::new(alloc);
    conds.push(cond)?;
    Ok(Query::Where(conds))
}

/// The rows whose point lies in a rectangle, its border included, from its lowest to its highest x and y.
/// There is none where `low` is above `high` in either.
pub fn within<O: OpClass<Cond = PointCond>>(
    alloc: Global,
    low: Point,
    high: Point,
) -> Result<Query<O>, Memory>
    ensures { IfOk result (λ query. query ≡ Where (Inside low.x low.y high.x high.y ∷ [])) }
{
    let cond = PointCond::Inside {
        x1: low.x,
        y1: low.y,
        x2: high.x,
        y2: high.y,
    };
    one(alloc, cond)
}

/// The rows at a point.
pub fn equal<O: OpClass<Cond = PointCond>>(alloc: Global, point: Point) -> Result<Query<O>, Memory>
    ensures { IfOk result (λ query. query ≡ Where (Eq point ∷ [])) }
{
    one(alloc, PointCond::Eq(point))
}

/// The rows whose text begins with this one.
pub fn prefix<O: OpClass<Cond = TextCond>>(
    alloc: Global,
    front: ByteText,
) -> Result<Query<O>, Memory>
    ensures { IfOk result (λ query. query ≡ Where (Starts front ∷ [])) }
{
    one(alloc, TextCond::Starts(front))
}
