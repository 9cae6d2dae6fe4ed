// The inserts of a primary, each section of which queues its record.
ghost use Rattle.std.specs.Prelude.{◌≡◌, ◌≢◌, ◌<◌, ◌+◌, ◌^◌, ◌↔◌, ◌⊎◌, ℕ, Some, length, IfOk, OnOk, OnErr, IsErrOf};
ghost use Rattle.std.specs.VecDeque.{deque_len, deque_capacity};
ghost use Rattle.spg_rows.specs.History.{nothing, open_of};
ghost use Rattle.spg_rows.specs.Rows.{held_by};
ghost use Rattle.spg_rows.specs.Told.{IsUsed};
ghost use Rattle.spg_tree.specs.declared.stand.StepRefused.TheVariants.{IndexFull, ClockFull};
ghost use Rattle.spg_core.specs.Stage.{free, IsInserting};
ghost use Rattle.spg_core.specs.Seen.{stage_at, past_of};
ghost use Rattle.spg_core.specs.Stepping.{IsNearLimit, Grows};
ghost use Rattle.spg_core.specs.Sections.{OpensInsert};
ghost use Rattle.spg_core.specs.Through.{StillInserts, PutsRow};
ghost use Rattle.spg_whole.specs.Underway.{HasOutgrown};
ghost use Rattle.spg_whole.specs.Calls.{AllClosed};
ghost use Rattle.spg_standby.specs.declared.wrote.Wrote.TheVariants as came;
ghost use Rattle.spg_standby.specs.Pair.{IsPaired};
ghost use Rattle.spg_standby.specs.Noting.{KeepsPaired};
ghost use Rattle.spg_standby.specs.Finding.{IsIdle};
ghost use Rattle.spg_standby.specs.Writes.{Inserted, why_of, came_of};

use crate::giving_up::give_up;
use crate::others::{none_open, none_waits, only_own, tells};
use crate::queue::{Queue, keep, note, ready};
use crate::record::Record;
use crate::standby::{Standby, follow};
use crate::wrote::Wrote;
use spg_base::{Row, SeatNo};
use spg_core::{InsertOut, OpenRefused, State, StepRefused};
use spg_opclass::OpClass;
use spg_rows::Why;
use std::alloc::Global;

/// Opens an insert, and gives the record for its end.
fn open<O: OpClass>(
    alloc: Global,
    state: &mut State<O>,
    queue: &mut Queue,
    seat: SeatNo,
    row: Row,
    key: Option<O::Key>,
) -> Result<Record, OpenRefused>
    requires free { stage_at state.old seat ≡ free }
    ensures pairs { KeepsPaired O.meaning state.old state.new queue.old.records.items queue.new.records.items }
    ensures ok { OnOk result (OpensInsert O.meaning state.old state.new seat row key) }
    ensures room { IfOk result (λ last. length last.pages ≡ 8) }
    ensures place { OnOk result (deque_len queue.new.records < deque_capacity queue.new.records) }
    ensures row_used { IsErrOf result OpenRefused.RowUsed → IsUsed (past_of state.old) row }
    ensures used { IsUsed (past_of state.old) row → IsErrOf result OpenRefused.RowUsed ⊎ IsErrOf result OpenRefused.Memory }
    ensures row_held { (by : ℕ) → IsErrOf result (OpenRefused.RowHeld by) → (held_by row (past_of state.old) ≡ Some by) }
    ensures err { OnErr result (state.new ≡ state.old) }
{
    let last = queue.pool.room(alloc)?;
    let room = ready(alloc, queue)?;
    tells(state, seat);
    if let Err(refused) = state.open_insert(seat, row, key) {
        return Err(refused);
    }
    tells(state, seat);
    note(queue, state, room);
    Ok(last)
}

/// The sections of an insert one after another, until its row is put. No other seat has anything open, so
/// none sends it back, and each section takes one of those that may come yet. The standby follows after
/// each of them.
fn put<O: OpClass>(
    state: &mut State<O>,
    standby: &mut Standby<O>,
    seat: SeatNo,
) -> Result<(), StepRefused>
    requires paired { IsPaired O.meaning state.old standby.old.follower standby.old.queue.records.items }
    requires idle { IsIdle standby.old.follower }
    requires alone { (other : ℕ) → other ≢ seat → open_of other (past_of state.old) ≡ nothing }
    requires inserting { IsInserting (stage_at state.old seat) }
    requires place { deque_len standby.old.queue.records < deque_capacity standby.old.queue.records }
    ensures paired { IsPaired O.meaning state.new standby.new.follower standby.new.queue.records.items }
    ensures idle { IsIdle standby.new.follower }
    ensures place { deque_len standby.new.queue.records < deque_capacity standby.new.queue.records }
    ensures lag { standby.new.lag ≡ standby.old.lag }
    ensures ok { OnOk result (PutsRow state.old state.new seat) }
    ensures full { IsErrOf result IndexFull → HasOutgrown O.meaning state.old seat × IsNearLimit state.new.table }
    ensures clock { IsErrOf result ClockFull → HasOutgrown O.meaning state.old seat × (state.new.table.clock + 1 ≡ 2 ^ 48) }
    ensures err { OnErr result (StillInserts state.old state.new seat) }
    ensures grows { Grows state.old.table state.new.table }
{
    let _count = state.pages().page_count();
    for _turn in 0..u64::MAX {
        follow(state, standby);
        let room = ready(standby.alloc, &mut standby.queue)?;
        tells(state, seat);
        let out = state.insert_step(seat)?;
        tells(state, seat);
        note(&mut standby.queue, state, room);
        match &out {
            InsertOut::Put => return Ok(()),
            InsertOut::Restarted { block, by } => {
                only_own(state, seat, *block, *by);
                unreachable!()
            }
            InsertOut::Descended | InsertOut::Restructured => {}
        }
    }
    unreachable!()
}

/// Why an insert was not opened, where no seat has anything open.
fn unopened<O: OpClass>(state: &State<O>, row: Row, refused: &OpenRefused) -> Wrote
    requires closed { AllClosed (past_of state.now) }
    requires held { (by : ℕ) → refused.now ≡ OpenRefused.RowHeld by → (held_by row (past_of state.now) ≡ Some by) }
    ensures used { result ≡ came.RowUsed ↔ (refused.now ≡ OpenRefused.RowUsed) }
    ensures memory { result ≡ came.Memory ↔ (refused.now ≡ OpenRefused.Memory) }
    ensures is { (result ≡ came.RowUsed) ⊎ (result ≡ came.Memory) }
{
    match refused {
        OpenRefused::RowUsed => Wrote::RowUsed,
        OpenRefused::RowHeld { by } => {
            none_waits(state, row, *by);
            unreachable!()
        }
        OpenRefused::Memory => Wrote::Memory,
    }
}

/// With what cause an insert is given up after a refused section, and what is answered.
fn cause_of(refused: &StepRefused) -> (Why, Wrote)
    ensures why { result.0 ≡ why_of refused.now }
    ensures wrote { result.1 ≡ came_of refused.now }
{
    match refused {
        StepRefused::IndexFull => (Why::Full, Wrote::IndexFull),
        StepRefused::ClockFull => (Why::Clock, Wrote::ClockFull),
        StepRefused::Memory => (Why::Given, Wrote::Memory),
    }
}

/// Inserts a row with its key, or with the null, where the row is not claimed.
pub(crate) fn insert<O: OpClass>(
    state: &mut State<O>,
    standby: &mut Standby<O>,
    seat: SeatNo,
    row: Row,
    key: Option<O::Key>,
) -> Wrote
    requires paired { IsPaired O.meaning state.old standby.old.follower standby.old.queue.records.items }
    requires idle { IsIdle standby.old.follower }
    requires closed { AllClosed (past_of state.old) }
    ensures paired { IsPaired O.meaning state.new standby.new.follower standby.new.queue.records.items }
    ensures idle { IsIdle standby.new.follower }
    ensures closed { AllClosed (past_of state.new) }
    ensures lag { standby.new.lag ≡ standby.old.lag }
    ensures wrote { Inserted O.meaning state.old state.new seat row key result }
    ensures used { IsUsed (past_of state.old) row → (result ≡ came.RowUsed) ⊎ (result ≡ came.Memory) }
{
    none_open(state, seat);
    let last = match open(standby.alloc, state, &mut standby.queue, seat, row, key) {
        Ok(last) => last,
        Err(refused) => return unopened(state, row, &refused),
    };
    match put(state, standby, seat) {
        Ok(()) => {
            keep(&mut standby.queue, last);
            Wrote::Added
        }
        Err(refused) => {
            let (why, wrote) = cause_of(&refused);
            give_up(state, &mut standby.queue, seat, why, last);
            wrote
        }
    }
}
