// Whole calls on an index of any class, as C is told of them.
ghost use Rattle.std.specs.Prelude.{◌≡◌, ◌≤◌, IfOk};
ghost use Rattle.spg_core.specs.Counts.{IsStat};
ghost use Rattle.spg_c.specs.Calls.{TellsStat};
ghost use Rattle.spg_c.specs.Tells.{TellsInsert, TellsDelete, TellsFind, TellsVacuum, TellsNear};

use crate::refused::Refused;
use spgist::{
    Index, List, Memory, NearClass, NearRow, OpClass, Point, Query, Row, Rows, Stat, near,
};
use std::alloc::Global;

/// Inserts a row with its key or with the null.
pub(crate) fn put<O: OpClass>(
    index: &mut Index<O>,
    row: Row,
    key: Option<O::Key>,
) -> Result<(), Refused>
    ensures { TellsInsert O.meaning index.old index.new row key result }
{
    match index.insert(row, key) {
        Ok(()) => Ok(()),
        Err(why) => Err(why.into()),
    }
}

/// Deletes a row, where it is live.
pub(crate) fn kill<O: OpClass>(index: &mut Index<O>, row: Row) -> Result<(), Refused>
    ensures { TellsDelete index.old index.new row result }
{
    match index.delete(row) {
        Ok(true) => Ok(()),
        Ok(false) => Err(Refused::Absent),
        Err(Memory) => Err(Refused::Memory),
    }
}

/// Finds the rows that a query asks for.
pub(crate) fn seek<O: OpClass>(index: &mut Index<O>, query: Query<O>) -> Result<Rows, Refused>
    ensures { TellsFind O.meaning index.old index.new query result }
{
    match index.find(query) {
        Ok(rows) => Ok(rows),
        Err(Memory) => Err(Refused::Memory),
    }
}

/// Removes the entries of the rows that were deleted. Gives how many they are.
pub(crate) fn sweep<O: OpClass>(index: &mut Index<O>) -> Result<u64, Refused>
    ensures { TellsVacuum index.old index.new result }
{
    match index.vacuum() {
        Ok(swept) => Ok(swept),
        Err(Memory) => Err(Refused::Memory),
    }
}

/// The rows nearest to a point.
pub(crate) fn nearest<O: NearClass>(
    alloc: Global,
    index: &Index<O>,
    target: Point,
    limit: u16,
) -> Result<List<NearRow>, Refused>
    ensures { TellsNear index.now target limit result }
{
    match near(alloc, index, target, limit) {
        Ok(rows) => Ok(rows),
        Err(Memory) => Err(Refused::Memory),
    }
}

/// How many pages and how many tuples of each kind there are, and the clock.
pub(crate) fn count<O: OpClass>(index: &Index<O>) -> Result<Stat, Refused>
    ensures { TellsStat index.now result }
{
    Ok(index.stat())
}
