// The nearest rows while nothing is open.
ghost use Rattle.std.specs.Prelude.{◌≡◌, IfOk, Some as Just};
ghost use Rattle.spg_tree.specs.Table.{latch_at};
ghost use Rattle.spg_core.specs.Seen.{past_of};
ghost use Rattle.spg_whole.specs.Calls.{AllClosed};
ghost use Rattle.spg_near.specs.Nearest.{AreNearest};

use spg_base::{Block, List, Memory, Point, SeatNo};
use spg_core::State;
use spg_near::{NearClass, NearRow, Sought, search_now};
use spg_whole::Index;
use std::alloc::Global;

/// Where nothing is open, no block is latched. Nothing is done here.
fn no_latch<O: NearClass>(state: &State<O>, block: Block, by: SeatNo)
    ensures { AllClosed (past_of state.now) → latch_at state.now.table block ≡ Just by → ⊥ }
{
    // Each latch is that of an insert that its seat has open.
    let _ = state.pages();
    let _ = state.open_of(by);
}

/// The live rows nearest to a point, `limit` at most, each with the square of its distance: by distance,
/// then by row. A row whose key is null is none of them. The index stays as it is.
pub fn near<O: NearClass>(
    alloc: Global,
    index: &Index<O>,
    target: Point,
    limit: u16,
) -> Result<List<NearRow>, Memory>
    ensures { IfOk result (λ rows. AreNearest (past_of index.now) target limit rows) }
{
    if limit == 0 {
        return Ok(List::new(alloc));
    }
    let state = index.state();
    let at = state.journal().len();
    match search_now(
        alloc,
        state.class(),
        state.pages(),
        state.rows(),
        SeatNo::first(),
        at,
        target,
        limit,
    )? {
        Sought::Found { rows, .. } => Ok(rows),
        Sought::Latched { block, by } => {
            no_latch(state, block, by);
            unreachable!()
        }
    }
}
