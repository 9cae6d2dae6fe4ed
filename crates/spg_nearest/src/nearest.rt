ghost use Rattle.std.specs.Prelude.{◌<◌, IfOk, OnErr};
ghost use Rattle.spg_opclass.specs.declared.query.Query.TheVariants.{All};
ghost use Rattle.spg_core.specs.Seen.{past_of};
ghost use Rattle.spg_whole.specs.Calls.{AllClosed, FindsNone};
ghost use Rattle.spg_nearest.specs.Finds.{FindsNearest};

use spg_among::{Idle, NearOut, near_among};
use spg_base::{List, Memory, Point, SeatNo};
use spg_core::State;
use spg_near::{NearClass, NearRow};
use std::alloc::Global;

/// The rows nearest to a point, each with its distance, nearest first and those of one distance by row;
/// and how many inner, leaf and dead tuples were met on the way.
#[derive(Debug, Drop)]
pub struct Nearest {
    pub rows: List<NearRow>,
    pub met: u64,
}

/// Finds the rows nearest to a point, `limit` at most. No seat has anything open, before and after. The
/// pages stay as they are, and the journal has two events more: a scan of all rows that opens, and is
/// left. After a refusal nothing was found.
pub fn find_nearest<O: NearClass>(
    alloc: Global,
    state: &mut State<O>,
    seat: SeatNo,
    target: Point,
    limit: u16,
) -> Result<Nearest, Memory>
    requires closed { AllClosed (past_of state.old) }
    requires some { 0 < limit }
    ensures ok { IfOk result (λ found. FindsNearest O.meaning O.box_below state.old state.new seat target limit found.rows found.met) }
    ensures err { OnErr result (FindsNone state.old state.new seat All) }
{
    // The seat is free, and a search of so few pages meets fewer tuples than 64 bits can tell.
    let _ = state.open_of(seat);
    let _ = state.pages().page_count();
    let answer = near_among(alloc, state, seat, target, limit, &mut Idle)?;
    match answer {
        NearOut::Near { rows, met, .. } => Ok(Nearest { rows, met }),
        NearOut::Latched { by, .. } => {
            // Each latch is that of an insert that its seat has open.
            let _ = state.pages();
            let _ = state.open_of(by);
            unreachable!()
        }
    }
}
