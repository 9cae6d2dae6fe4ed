ghost use Rattle.std.specs.Prelude.{Bool};
ghost use Rattle.spg_core.specs.Seen.{past_of};
ghost use Rattle.spg_script.specs.declared.command.Command.TheVariants.{Vacuum};
ghost use Rattle.spg_whole.specs.Calls.{AllClosed};
ghost use Rattle.spg_commands.specs.Acted.{Acts};

use crate::answers::vacuum_outcome;
use crate::position::{none_open, position, recorded};
use spg_base::SeatNo;
use spg_core::State;
use spg_report::Record;
use spg_script::Spoken;

/// Removes the entries of the rows that were deleted, by a vacuum that is opened and run to its end.
/// Where there is no memory, it is given up. No seat has anything open.
pub(crate) fn vacuum<O: Spoken>(state: &mut State<O>, seat: SeatNo) -> Record
    requires closed { AllClosed (past_of state.old) }
    ensures { (alone : Bool) → Acts O.meaning O.speech state.old state.new seat alone Vacuum result }
{
    let from = position(state);
    none_open(state, seat);
    let swept = spg_whole::vacuum(state, seat);
    none_open(state, seat);
    recorded(state, from, vacuum_outcome(swept))
}
