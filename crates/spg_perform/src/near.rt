ghost use Rattle.std.specs.Prelude.{◌<◌, true};
ghost use Rattle.spg_core.specs.Seen.{past_of};
ghost use Rattle.spg_script.specs.Speech.{IsKnown};
ghost use Rattle.spg_script.specs.declared.command.Command.TheVariants.{Near};
ghost use Rattle.spg_whole.specs.Calls.{AllClosed};
ghost use Rattle.spg_commands.specs.Acted.{Acts};

use crate::answers::near_outcome;
use crate::position::{none_open, position, recorded};
use spg_base::{Point, SeatNo};
use spg_core::State;
use spg_report::Record;
use spg_served::Served;
use std::alloc::Global;

/// Finds the rows nearest to a point. Where there is no memory, it is given up. No seat has anything open.
pub(crate) fn near<O: Served>(
    alloc: Global,
    state: &mut State<O>,
    seat: SeatNo,
    target: Point,
    limit: u16,
) -> Record
    requires closed { AllClosed (past_of state.old) }
    requires known { IsKnown O.speech (Near target limit) }
    requires some { 0 < limit }
    ensures { Acts O.meaning O.speech state.old state.new seat true (Near target limit) result }
{
    let from = position(state);
    none_open(state, seat);
    let found = O::near(alloc, state, seat, target, limit);
    none_open(state, seat);
    recorded(state, from, near_outcome(found))
}
