// What C calls. Each answers a number: 0 where the call was done, else why it was not.
ghost use Rattle.std.specs.Prelude.{◌≡◌};
ghost use Rattle.spg_c.specs.Calls.{InsertsPoint, InsertsText, InsertsNull, DeletesRow, Vacuumed, HandsOne};
ghost use Rattle.spg_c.specs.Held.{index_of};
ghost use Rattle.spg_c.specs.Told.{IsTold, IsHanded, number_of};

use crate::changes;
use crate::handing::hand_count;
use crate::handle::SpgIndex;
use crate::refused::told;
use crate::values::SpgRow;
use spgist::Point;
use std::alloc::Global;

/// Inserts a row with its point.
#[unsafe(no_mangle)]
pub extern "C" fn spg_c_insert_point(handle: &mut SpgIndex, row: SpgRow, x: i32, y: i32) -> u32
    ensures { IsTold result (λ answer. InsertsPoint (index_of handle.old) (index_of handle.new) row (record { x = x; y = y }) answer) }
{
    told(changes::insert_point(handle, row, Point { x, y }))
}

/// Inserts a row with its text, of at most 3,900 bytes.
#[unsafe(no_mangle)]
pub extern "C" fn spg_c_insert_text(
    alloc: Global,
    handle: &mut SpgIndex,
    row: SpgRow,
    bytes: &[u8],
) -> u32
    ensures { IsTold result (λ answer. InsertsText (index_of handle.old) (index_of handle.new) row bytes.now answer) }
{
    told(changes::insert_text(alloc, handle, row, bytes))
}

/// Inserts a row with the null.
#[unsafe(no_mangle)]
pub extern "C" fn spg_c_insert_null(handle: &mut SpgIndex, row: SpgRow) -> u32
    ensures { IsTold result (λ answer. InsertsNull (index_of handle.old) (index_of handle.new) row answer) }
{
    told(changes::insert_null(handle, row))
}

/// Deletes a row.
#[unsafe(no_mangle)]
pub extern "C" fn spg_c_delete(handle: &mut SpgIndex, row: SpgRow) -> u32
    ensures { IsTold result (λ answer. DeletesRow (index_of handle.old) (index_of handle.new) row answer) }
{
    told(changes::delete(handle, row))
}

/// Removes the entries of the rows that were deleted. `swept` is how many they were.
#[unsafe(no_mangle)]
pub extern "C" fn spg_c_vacuum(handle: &mut SpgIndex, swept: &mut u64) -> u32
    ensures { IsHanded (λ answer. Vacuumed (index_of handle.old) (index_of handle.new) answer) (λ answer. HandsOne (λ n. n) swept.old swept.new result number_of answer) }
{
    hand_count(changes::vacuum(handle), swept)
}
