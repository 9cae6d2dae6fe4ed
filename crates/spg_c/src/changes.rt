// Calls on what a handle keeps.
ghost use Rattle.std.specs.Prelude.{◌≡◌};
ghost use Rattle.spg_c.specs.Calls.{InsertsPoint, InsertsText, InsertsNull, DeletesRow, Vacuumed};
ghost use Rattle.spg_c.specs.Held.{index_of};

use crate::handle::SpgIndex;
use crate::refused::Refused;
use crate::values::{SpgRow, row_of};
use spgist::Point;
use std::alloc::Global;

/// Inserts a row with its point.
pub(crate) fn insert_point(handle: &mut SpgIndex, row: SpgRow, at: Point) -> Result<(), Refused>
    ensures { InsertsPoint (index_of handle.old) (index_of handle.new) row at result }
{
    let Some(row) = row_of(row) else {
        return Err(Refused::Range);
    };
    let Some(kept) = handle.take() else {
        return Err(Refused::Closed);
    };
    let done = kept.index.insert_point(row, at);
    handle.put(kept);
    done
}

/// Inserts a row with its text.
pub(crate) fn insert_text(
    alloc: Global,
    handle: &mut SpgIndex,
    row: SpgRow,
    bytes: &[u8],
) -> Result<(), Refused>
    ensures { InsertsText (index_of handle.old) (index_of handle.new) row bytes.now result }
{
    let Some(row) = row_of(row) else {
        return Err(Refused::Range);
    };
    let Some(kept) = handle.take() else {
        return Err(Refused::Closed);
    };
    let done = kept.index.insert_text(alloc, row, bytes);
    handle.put(kept);
    done
}

/// Inserts a row with the null.
pub(crate) fn insert_null(handle: &mut SpgIndex, row: SpgRow) -> Result<(), Refused>
    ensures { InsertsNull (index_of handle.old) (index_of handle.new) row result }
{
    let Some(row) = row_of(row) else {
        return Err(Refused::Range);
    };
    let Some(kept) = handle.take() else {
        return Err(Refused::Closed);
    };
    let done = kept.index.insert_null(row);
    handle.put(kept);
    done
}

/// Deletes a row.
pub(crate) fn delete(handle: &mut SpgIndex, row: SpgRow) -> Result<(), Refused>
    ensures { DeletesRow (index_of handle.old) (index_of handle.new) row result }
{
    let Some(row) = row_of(row) else {
        return Err(Refused::Range);
    };
    let Some(kept) = handle.take() else {
        return Err(Refused::Closed);
    };
    let done = kept.index.delete(row);
    handle.put(kept);
    done
}

/// Removes the entries of the rows that were deleted.
pub(crate) fn vacuum(handle: &mut SpgIndex) -> Result<u64, Refused>
    ensures { Vacuumed (index_of handle.old) (index_of handle.new) result }
{
    let Some(kept) = handle.take() else {
        return Err(Refused::Closed);
    };
    let done = kept.index.vacuum();
    handle.put(kept);
    done
}
