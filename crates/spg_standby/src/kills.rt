ghost use Rattle.std.specs.Prelude.{◌≡◌, IfOk, OnErr};
ghost use Rattle.spg_core.specs.Seen.{past_of};
ghost use Rattle.spg_whole.specs.Calls.{AllClosed, Deletes};
ghost use Rattle.spg_standby.specs.Pair.{IsPaired};
ghost use Rattle.spg_standby.specs.Noting.{KeepsPaired};
ghost use Rattle.spg_standby.specs.Finding.{IsIdle};
ghost use Rattle.spg_standby.specs.Writes.{Deleted};

use crate::others::{none_open, right, tells};
use crate::queue::{Queue, keep, note, ready};
use crate::standby::Standby;
use crate::wrote::Wrote;
use spg_base::{Memory, Row, SeatNo};
use spg_core::State;
use spg_opclass::OpClass;
use std::alloc::Global;

/// Deletes a row, where it is live, and queues the record of it.
fn take_off<O: OpClass>(
    alloc: Global,
    state: &mut State<O>,
    queue: &mut Queue,
    seat: SeatNo,
    row: Row,
) -> Result<bool, Memory>
    requires closed { AllClosed (past_of state.old) }
    ensures pairs { KeepsPaired O.meaning state.old state.new queue.old.records.items queue.new.records.items }
    ensures ok { IfOk result (λ killed. Deletes state.old state.new seat row killed) }
    ensures err { OnErr result (state.new ≡ state.old) }
{
    let room = ready(alloc, queue)?;
    none_open(state, seat);
    tells(state, seat);
    let killed = state.kill(seat, row)?;
    right(state);
    if killed {
        tells(state, seat);
        note(queue, state, room);
    } else {
        keep(queue, room);
    }
    Ok(killed)
}

/// Deletes a row, where it is live.
pub(crate) fn kill<O: OpClass>(
    state: &mut State<O>,
    standby: &mut Standby<O>,
    seat: SeatNo,
    row: Row,
) -> Wrote
    requires paired { IsPaired O.meaning state.old standby.old.follower standby.old.queue.records.items }
    requires idle { IsIdle standby.old.follower }
    requires closed { AllClosed (past_of state.old) }
    ensures paired { IsPaired O.meaning state.new standby.new.follower standby.new.queue.records.items }
    ensures idle { IsIdle standby.new.follower }
    ensures closed { AllClosed (past_of state.new) }
    ensures lag { standby.new.lag ≡ standby.old.lag }
    ensures wrote { Deleted state.old state.new seat row result }
{
    match take_off(standby.alloc, state, &mut standby.queue, seat, row) {
        Ok(true) => Wrote::Killed,
        Ok(false) => Wrote::NotLive,
        Err(Memory) => Wrote::Memory,
    }
}
