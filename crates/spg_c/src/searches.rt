// Calls on what a handle keeps.
ghost use Rattle.std.specs.Prelude.{◌≡◌};
ghost use Rattle.spg_c.specs.Calls.{FindsAll, FindsNull, FindsPoints, FindsTexts, FindsNearest, CountsOf};
ghost use Rattle.spg_c.specs.Held.{index_of};

use crate::conds::{SpgPointCond, SpgTextCond};
use crate::handle::SpgIndex;
use crate::refused::Refused;
use spgist::{List, NearRow, Point, Rows, Stat};
use std::alloc::Global;

/// Finds every row.
pub(crate) fn find_all(handle: &mut SpgIndex) -> Result<Rows, Refused>
    ensures { FindsAll (index_of handle.old) (index_of handle.new) result }
{
    let Some(kept) = handle.take() else {
        return Err(Refused::Closed);
    };
    let done = kept.index.find_all();
    handle.put(kept);
    done
}

/// Finds the rows whose key is the null.
pub(crate) fn find_null(handle: &mut SpgIndex) -> Result<Rows, Refused>
    ensures { FindsNull (index_of handle.old) (index_of handle.new) result }
{
    let Some(kept) = handle.take() else {
        return Err(Refused::Closed);
    };
    let done = kept.index.find_null();
    handle.put(kept);
    done
}

/// Finds the rows whose point meets each condition.
pub(crate) fn find_points(
    alloc: Global,
    handle: &mut SpgIndex,
    conds: &[SpgPointCond],
) -> Result<Rows, Refused>
    ensures { FindsPoints (index_of handle.old) (index_of handle.new) conds.now result }
{
    let Some(kept) = handle.take() else {
        return Err(Refused::Closed);
    };
    let done = kept.index.find_points(alloc, conds);
    handle.put(kept);
    done
}

/// Finds the rows whose text meets each condition.
pub(crate) fn find_texts(
    alloc: Global,
    handle: &mut SpgIndex,
    bytes: &[u8],
    conds: &[SpgTextCond],
) -> Result<Rows, Refused>
    ensures { FindsTexts (index_of handle.old) (index_of handle.new) bytes.now conds.now result }
{
    let Some(kept) = handle.take() else {
        return Err(Refused::Closed);
    };
    let done = kept.index.find_texts(alloc, bytes, conds);
    handle.put(kept);
    done
}

/// The rows nearest to a point.
pub(crate) fn near(
    alloc: Global,
    handle: &mut SpgIndex,
    target: Point,
    limit: u16,
) -> Result<List<NearRow>, Refused>
    ensures { FindsNearest (index_of handle.old) (index_of handle.new) target limit result }
{
    let Some(kept) = handle.take() else {
        return Err(Refused::Closed);
    };
    let done = kept.index.near(alloc, target, limit);
    handle.put(kept);
    done
}

/// How many pages and how many tuples of each kind there are, and the clock.
pub(crate) fn stat(handle: &mut SpgIndex) -> Result<Stat, Refused>
    ensures { CountsOf (index_of handle.old) (index_of handle.new) result }
{
    let Some(kept) = handle.take() else {
        return Err(Refused::Closed);
    };
    let done = kept.index.stat();
    handle.put(kept);
    done
}
