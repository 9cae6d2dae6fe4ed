// What a state says of itself. Nothing is done here.
ghost use Rattle.std.specs.Prelude.{◌≡◌, ◌≢◌, ℕ, Some};
ghost use Rattle.spg_rows.specs.History.{nothing, open_of};
ghost use Rattle.spg_rows.specs.Rows.{held_by};
ghost use Rattle.spg_rows.specs.Right.{Right};
ghost use Rattle.spg_tree.specs.Table.{latch_at};
ghost use Rattle.spg_core.specs.Stage.{free};
ghost use Rattle.spg_core.specs.Seen.{stage_at, past_of};
ghost use Rattle.spg_records.specs.Traces.{Tells, SeatFits};
ghost use Rattle.spg_whole.specs.Calls.{AllClosed};

use spg_base::{Block, Row, SeatNo};
use spg_core::State;
use spg_opclass::OpClass;

/// What a state says of itself, and of a seat.
pub(crate) fn tells<O: OpClass>(state: &State<O>, seat: SeatNo)
    ensures tells { Tells O.meaning state.now }
    ensures fits { SeatFits O.meaning state.now seat }
{
    let _ = state.pages().page_count();
    let _ = state.journal();
    let _ = state.open_of(seat);
}

/// The journal is right.
pub(crate) fn right<O: OpClass>(state: &State<O>)
    ensures { Right O.meaning state.now.journal }
{
    let _ = state.journal();
}

/// Where no seat has anything open, this one is free.
pub(crate) fn none_open<O: OpClass>(state: &State<O>, by: SeatNo)
    ensures { AllClosed (past_of state.now) → stage_at state.now by ≡ free }
{
    let _ = state.open_of(by);
}

/// Where no seat has anything open, no row waits for one.
pub(crate) fn none_waits<O: OpClass>(state: &State<O>, row: Row, by: SeatNo)
    ensures { AllClosed (past_of state.now) → held_by row (past_of state.now) ≡ Some by → ⊥ }
{
    let _ = state.journal();
}

/// Where no other seat has anything open, none has latched a block.
pub(crate) fn only_own<O: OpClass>(state: &State<O>, seat: SeatNo, block: Block, by: SeatNo)
    ensures { ((other : ℕ) → other ≢ seat → open_of other (past_of state.now) ≡ nothing) → latch_at state.now.table block ≡ Some by → by ≡ seat }
{
    // Each latch is that of an insert that its seat has open.
    let _ = state.pages();
    let _ = state.open_of(by);
}
