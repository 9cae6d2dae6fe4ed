ghost use Rattle.std.specs.Prelude.{◌≡◌, ◌≢◌, ◌<◌, length};
ghost use Rattle.std.specs.VecDeque.{deque_len, deque_capacity};
ghost use Rattle.spg_core.specs.Stage.{free, MayGiveUp};
ghost use Rattle.spg_core.specs.Seen.{stage_at};
ghost use Rattle.spg_core.specs.Sections.{GivesUp};
ghost use Rattle.spg_standby.specs.Noting.{KeepsPaired};

use crate::others::tells;
use crate::queue::{Queue, note};
use crate::record::Record;
use spg_base::SeatNo;
use spg_core::State;
use spg_opclass::OpClass;
use spg_rows::Why;

/// Gives up what the seat has open, with a record that was kept for this.
pub(crate) fn give_up<O: OpClass>(
    state: &mut State<O>,
    queue: &mut Queue,
    seat: SeatNo,
    why: Why,
    last: Record,
)
    requires open { stage_at state.old seat ≢ free }
    requires why { MayGiveUp state.old.table (stage_at state.old seat) why }
    requires room { length last.pages ≡ 8 }
    requires place { deque_len queue.old.records < deque_capacity queue.old.records }
    ensures pairs { KeepsPaired O.meaning state.old state.new queue.old.records.items queue.new.records.items }
    ensures up { GivesUp state.old state.new seat why }
{
    tells(state, seat);
    state.abandon(seat, why);
    tells(state, seat);
    note(queue, state, last);
}
