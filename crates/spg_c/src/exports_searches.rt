// What C calls. Each answers a number: 0 where the call was done, else why it was not.
ghost use Rattle.std.specs.Prelude.{◌≡◌};
ghost use Rattle.spg_c.specs.Calls.{FindsAll, FindsNull, FindsPoints, FindsTexts, FindsNearest, CountsOf, HandsOne};
ghost use Rattle.spg_c.specs.Held.{index_of};
ghost use Rattle.spg_c.specs.Handing.{HandsOut};
ghost use Rattle.spg_c.specs.Shown.{told_row, told_near, told_stat};
ghost use Rattle.spg_c.specs.Told.{IsHanded, number_of};

use crate::conds::{SpgPointCond, SpgTextCond};
use crate::handing::{hand_near, hand_rows, hand_stat};
use crate::handle::SpgIndex;
use crate::searches;
use crate::values::{SpgNearRow, SpgRow, SpgStat};
use spgist::Point;
use std::alloc::Global;

/// Finds every row. `count` is how many there are; as many of the first ones as there is room for are written.
#[unsafe(no_mangle)]
pub extern "C" fn spg_c_find_all(
    handle: &mut SpgIndex,
    rows: &mut [SpgRow],
    count: &mut usize,
) -> u32
    ensures { IsHanded (λ answer. FindsAll (index_of handle.old) (index_of handle.new) answer) (λ answer. HandsOut told_row rows.old rows.new count.old count.new result answer) }
{
    hand_rows(&searches::find_all(handle), rows, count)
}

/// Finds the rows whose key is the null.
#[unsafe(no_mangle)]
pub extern "C" fn spg_c_find_null(
    handle: &mut SpgIndex,
    rows: &mut [SpgRow],
    count: &mut usize,
) -> u32
    ensures { IsHanded (λ answer. FindsNull (index_of handle.old) (index_of handle.new) answer) (λ answer. HandsOut told_row rows.old rows.new count.old count.new result answer) }
{
    hand_rows(&searches::find_null(handle), rows, count)
}

/// Finds the rows whose point meets each of 1 to 8 conditions.
#[unsafe(no_mangle)]
pub extern "C" fn spg_c_find_points(
    alloc: Global,
    handle: &mut SpgIndex,
    conds: &[SpgPointCond],
    rows: &mut [SpgRow],
    count: &mut usize,
) -> u32
    ensures { IsHanded (λ answer. FindsPoints (index_of handle.old) (index_of handle.new) conds.now answer) (λ answer. HandsOut told_row rows.old rows.new count.old count.new result answer) }
{
    hand_rows(&searches::find_points(alloc, handle, conds), rows, count)
}

/// Finds the rows whose text meets each of 1 to 8 conditions, whose texts are parts of these bytes.
#[unsafe(no_mangle)]
pub extern "C" fn spg_c_find_texts(
    alloc: Global,
    handle: &mut SpgIndex,
    bytes: &[u8],
    conds: &[SpgTextCond],
    rows: &mut [SpgRow],
    count: &mut usize,
) -> u32
    ensures { IsHanded (λ answer. FindsTexts (index_of handle.old) (index_of handle.new) bytes.now conds.now answer) (λ answer. HandsOut told_row rows.old rows.new count.old count.new result answer) }
{
    hand_rows(
        &searches::find_texts(alloc, handle, bytes, conds),
        rows,
        count,
    )
}

/// Finds the rows nearest to a point, `limit` at most, with the squares of their distances.
#[unsafe(no_mangle)]
pub extern "C" fn spg_c_near(
    alloc: Global,
    handle: &mut SpgIndex,
    x: i32,
    y: i32,
    limit: u16,
    rows: &mut [SpgNearRow],
    count: &mut usize,
) -> u32
    ensures { IsHanded (λ answer. FindsNearest (index_of handle.old) (index_of handle.new) (record { x = x; y = y }) limit answer) (λ answer. HandsOut told_near rows.old rows.new count.old count.new result answer) }
{
    hand_near(
        &searches::near(alloc, handle, Point { x, y }, limit),
        rows,
        count,
    )
}

/// How many pages and how many tuples of each kind there are, and the clock.
#[unsafe(no_mangle)]
pub extern "C" fn spg_c_stat(handle: &mut SpgIndex, stat: &mut SpgStat) -> u32
    ensures { IsHanded (λ answer. CountsOf (index_of handle.old) (index_of handle.new) answer) (λ answer. HandsOne told_stat stat.old stat.new result number_of answer) }
{
    hand_stat(searches::stat(handle), stat)
}
