// The vacuums of a primary, each section of which queues its record.
ghost use Rattle.std.specs.Prelude.{◌≡◌, ◌≢◌, ◌<◌, ℕ, length, IfOk, OnOk, OnErr};
ghost use Rattle.std.specs.VecDeque.{deque_len, deque_capacity};
ghost use Rattle.spg_rows.specs.History.{nothing, open_of};
ghost use Rattle.spg_core.specs.Stage.{IsSweeping};
ghost use Rattle.spg_core.specs.Seen.{stage_at, past_of};
ghost use Rattle.spg_core.specs.Sections.{OpensVacuum};
ghost use Rattle.spg_whole.specs.Underway.{IsAlone, SweepsOn, SweepsToEnd};
ghost use Rattle.spg_whole.specs.Calls.{AllClosed};
ghost use Rattle.spg_standby.specs.Pair.{IsPaired};
ghost use Rattle.spg_standby.specs.Noting.{KeepsPaired};
ghost use Rattle.spg_standby.specs.Finding.{IsIdle};
ghost use Rattle.spg_standby.specs.Writes.{Vacuumed};

use crate::giving_up::give_up;
use crate::others::{none_open, only_own, right, tells};
use crate::queue::{Queue, keep, note, ready};
use crate::record::Record;
use crate::standby::{Standby, follow};
use crate::wrote::Wrote;
use spg_base::{Memory, SeatNo};
use spg_core::{State, VacuumOut, VacuumRefused};
use spg_opclass::OpClass;
use spg_rows::Why;
use std::alloc::Global;

/// Opens a vacuum, and gives the record for its end.
fn open_sweep<O: OpClass>(
    alloc: Global,
    state: &mut State<O>,
    queue: &mut Queue,
    seat: SeatNo,
) -> Result<Record, Memory>
    requires closed { AllClosed (past_of state.old) }
    ensures pairs { KeepsPaired O.meaning state.old state.new queue.old.records.items queue.new.records.items }
    ensures ok { OnOk result (OpensVacuum state.old state.new seat) }
    ensures room { IfOk result (λ last. length last.pages ≡ 8) }
    ensures place { OnOk result (deque_len queue.new.records < deque_capacity queue.new.records) }
    ensures err { OnErr result (state.new ≡ state.old) }
{
    let last = queue.pool.room(alloc)?;
    let room = ready(alloc, queue)?;
    none_open(state, seat);
    tells(state, seat);
    match &state.open_vacuum(seat) {
        Ok(()) => {}
        Err(VacuumRefused::Open { by }) => {
            none_open(state, *by);
            unreachable!()
        }
        Err(VacuumRefused::Memory) => return Err(Memory),
    }
    tells(state, seat);
    note(queue, state, room);
    Ok(last)
}

/// The sections of a vacuum one after another, until its end. The answer is how many rows it swept. No
/// other seat has anything open, so no place is listed, and each section takes the next block. The
/// standby follows after each of them.
fn sweep<O: OpClass>(
    state: &mut State<O>,
    standby: &mut Standby<O>,
    seat: SeatNo,
) -> Result<u64, Memory>
    requires paired { IsPaired O.meaning state.old standby.old.follower standby.old.queue.records.items }
    requires idle { IsIdle standby.old.follower }
    requires alone { (other : ℕ) → other ≢ seat → open_of other (past_of state.old) ≡ nothing }
    requires sweeping { IsSweeping (stage_at state.old seat) }
    requires alone_too { IsAlone state.old.table (stage_at state.old seat) }
    requires place { deque_len standby.old.queue.records < deque_capacity standby.old.queue.records }
    ensures paired { IsPaired O.meaning state.new standby.new.follower standby.new.queue.records.items }
    ensures idle { IsIdle standby.new.follower }
    ensures place { deque_len standby.new.queue.records < deque_capacity standby.new.queue.records }
    ensures lag { standby.new.lag ≡ standby.old.lag }
    ensures ok { IfOk result (λ swept. SweepsToEnd state.old state.new seat swept) }
    ensures err { OnErr result (SweepsOn state.old state.new seat) }
{
    loop {
        follow(state, standby);
        let room = ready(standby.alloc, &mut standby.queue)?;
        tells(state, seat);
        let out = state.vacuum_step(seat)?;
        tells(state, seat);
        note(&mut standby.queue, state, room);
        match &out {
            VacuumOut::Block | VacuumOut::Pending => {}
            VacuumOut::Finished { swept } => return Ok(*swept),
            VacuumOut::Latched { block, by } => {
                only_own(state, seat, *block, *by);
                unreachable!()
            }
        }
    }
}

/// Removes the entries of the rows that were deleted.
pub(crate) fn vacuum<O: OpClass>(
    state: &mut State<O>,
    standby: &mut Standby<O>,
    seat: SeatNo,
) -> Wrote
    requires paired { IsPaired O.meaning state.old standby.old.follower standby.old.queue.records.items }
    requires idle { IsIdle standby.old.follower }
    requires closed { AllClosed (past_of state.old) }
    ensures paired { IsPaired O.meaning state.new standby.new.follower standby.new.queue.records.items }
    ensures idle { IsIdle standby.new.follower }
    ensures closed { AllClosed (past_of state.new) }
    ensures lag { standby.new.lag ≡ standby.old.lag }
    ensures wrote { Vacuumed state.old state.new seat result }
{
    let Ok(last) = open_sweep(standby.alloc, state, &mut standby.queue, seat) else {
        return Wrote::Memory;
    };
    match sweep(state, standby, seat) {
        Ok(swept) => {
            right(state);
            keep(&mut standby.queue, last);
            Wrote::Vacuumed(swept)
        }
        Err(Memory) => {
            give_up(state, &mut standby.queue, seat, Why::Given, last);
            Wrote::Memory
        }
    }
}
