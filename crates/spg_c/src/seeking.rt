// Searches by the conditions that C gives.
ghost use Rattle.spg_c.specs.Calls.{SeeksConds};
ghost use Rattle.spg_c.specs.Conds.{point_cond_of, text_cond_of};

use crate::calls::seek;
use crate::conds::{SpgPointCond, SpgTextCond, point_conds, text_conds};
use crate::refused::Refused;
use spgist::{Index, OpClass, PointCond, Query, Rows, TextCond};
use std::alloc::Global;

/// Finds the rows whose point meets each condition.
pub(crate) fn seek_points<O: OpClass<Cond = PointCond>>(
    alloc: Global,
    index: &mut Index<O>,
    conds: &[SpgPointCond],
) -> Result<Rows, Refused>
    ensures { SeeksConds point_cond_of O.meaning index.old index.new conds.now result }
{
    match point_conds(alloc, conds) {
        Ok(list) => match seek(index, Query::Where(list)) {
            Ok(rows) => Ok(rows),
            Err(_) => Err(Refused::Memory),
        },
        Err(Refused::Range) => Err(Refused::Range),
        Err(_) => Err(Refused::Memory),
    }
}

/// Finds the rows whose text meets each condition.
pub(crate) fn seek_texts<O: OpClass<Cond = TextCond>>(
    alloc: Global,
    index: &mut Index<O>,
    bytes: &[u8],
    conds: &[SpgTextCond],
) -> Result<Rows, Refused>
    ensures { SeeksConds (text_cond_of bytes.now) O.meaning index.old index.new conds.now result }
{
    match text_conds(alloc, bytes, conds) {
        Ok(list) => match seek(index, Query::Where(list)) {
            Ok(rows) => Ok(rows),
            Err(_) => Err(Refused::Memory),
        },
        Err(Refused::Range) => Err(Refused::Range),
        Err(_) => Err(Refused::Memory),
    }
}
