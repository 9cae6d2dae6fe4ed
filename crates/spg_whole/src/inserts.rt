// An insert, from its opening to its end.
ghost use Rattle.std.specs.Prelude.{◌≡◌, ◌≢◌, ◌+◌, ◌^◌, ◌↔◌, ℕ, OnOk, OnErr, IfErr, IsErrOf};
ghost use Rattle.spg_rows.specs.History.{nothing, open_of};
ghost use Rattle.spg_rows.specs.Rows.{held_by};
ghost use Rattle.spg_rows.specs.Told.{IsUsed};
ghost use Rattle.spg_tree.specs.declared.stand.StepRefused.TheVariants.{IndexFull, ClockFull};
ghost use Rattle.spg_core.specs.Stage.{free, IsInserting};
ghost use Rattle.spg_core.specs.Seen.{stage_at, past_of};
ghost use Rattle.spg_core.specs.Stepping.{IsNearLimit, Grows};
ghost use Rattle.spg_core.specs.Through.{StillInserts, PutsRow};
ghost use Rattle.spg_whole.specs.Underway.{HasOutgrown, IsUnopened};
ghost use Rattle.spg_whole.specs.Calls.{AllClosed, Inserts, KeepsOut};

use crate::others::{none_open, none_waits, only_own, right};
use crate::refused::InsertRefused;
use spg_base::{Row, SeatNo};
use spg_core::{InsertRan, OpenRefused, State, StepRefused};
use spg_opclass::OpClass;
use spg_rows::Why;

/// Runs an insert through, until its row is put. No other seat has anything open.
fn put<O: OpClass>(state: &mut State<O>, seat: SeatNo) -> Result<(), StepRefused>
    requires alone { (other : ℕ) → other ≢ seat → open_of other (past_of state.old) ≡ nothing }
    requires inserting { IsInserting (stage_at state.old seat) }
    ensures ok { OnOk result (PutsRow state.old state.new seat) }
    ensures full { IsErrOf result IndexFull → HasOutgrown O.meaning state.old seat × IsNearLimit state.new.table }
    ensures clock { IsErrOf result ClockFull → HasOutgrown O.meaning state.old seat × (state.new.table.clock + 1 ≡ 2 ^ 48) }
    ensures err { OnErr result (StillInserts state.old state.new seat) }
    ensures grows { Grows state.old.table state.new.table }
{
    match state.insert_through(seat)? {
        InsertRan::Put => Ok(()),
        InsertRan::Restarted { block, by } => {
            only_own(state, seat, block, by);
            unreachable!()
        }
    }
}

/// Why an insert was not opened, where no seat has anything open.
fn unopened<O: OpClass>(state: &State<O>, row: Row, refused: &OpenRefused) -> InsertRefused
    requires closed { AllClosed (past_of state.now) }
    requires held { (by : ℕ) → refused.now ≡ OpenRefused.RowHeld by → (held_by row (past_of state.now) ≡ Some by) }
    ensures used { result ≡ InsertRefused.RowUsed ↔ (refused.now ≡ OpenRefused.RowUsed) }
    ensures is { IsUnopened refused.now result }
{
    match refused {
        OpenRefused::RowUsed => InsertRefused::RowUsed,
        OpenRefused::RowHeld { by } => {
            none_waits(state, row, *by);
            unreachable!()
        }
        OpenRefused::Memory => InsertRefused::Memory,
    }
}

/// Inserts a row with its key, or with the null. No seat has anything open, before and after. `RowUsed`
/// exactly where an insert of the row was put and not swept since, and nothing is done then. `IndexFull`
/// only where fewer than 4 blocks are left below the limit, and `ClockFull` only where the clock is
/// 2^48 - 1, both only where the keys of its tree that were ever inserted take more than 8,160 bytes, or
/// the state was loaded.
/// After these and after `Memory` the pages hold the rows that they held, each with its key.
pub fn insert<O: OpClass>(
    state: &mut State<O>,
    seat: SeatNo,
    row: Row,
    key: Option<O::Key>,
) -> Result<(), InsertRefused>
    requires closed { AllClosed (past_of state.old) }
    ensures ok { OnOk result (Inserts state.old state.new seat row key) }
    ensures err { IfErr result (λ refused. KeepsOut O.meaning state.old state.new seat row key refused) }
    ensures used { IsErrOf result InsertRefused.RowUsed ↔ IsUsed (past_of state.old) row }
{
    none_open(state, seat);
    match state.open_insert(seat, row, key) {
        Ok(()) => {}
        Err(refused) => return Err(unopened(state, row, &refused)),
    }
    match put(state, seat) {
        Ok(()) => {
            right(state);
            Ok(())
        }
        Err(StepRefused::IndexFull) => {
            state.abandon(seat, Why::Full);
            right(state);
            Err(InsertRefused::IndexFull)
        }
        Err(StepRefused::ClockFull) => {
            state.abandon(seat, Why::Clock);
            right(state);
            Err(InsertRefused::ClockFull)
        }
        Err(StepRefused::Memory) => {
            state.abandon(seat, Why::Given);
            right(state);
            Err(InsertRefused::Memory)
        }
    }
}
