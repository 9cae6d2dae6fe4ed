ghost use Rattle.std.specs.Prelude.{Bool};
ghost use Rattle.spg_core.specs.Seen.{past_of};
ghost use Rattle.spg_script.specs.declared.command.Command.TheVariants.{Delete};
ghost use Rattle.spg_whole.specs.Calls.{AllClosed};
ghost use Rattle.spg_commands.specs.Acted.{Acts};

use crate::answers::delete_outcome;
use crate::position::{none_open, position, recorded};
use spg_base::{Row, SeatNo};
use spg_core::State;
use spg_report::Record;
use spg_script::Spoken;

/// Deletes a row, where it is live. No seat has anything open.
pub(crate) fn delete<O: Spoken>(state: &mut State<O>, seat: SeatNo, row: Row) -> Record
    requires closed { AllClosed (past_of state.old) }
    ensures { (alone : Bool) → Acts O.meaning O.speech state.old state.new seat alone (Delete row) result }
{
    let from = position(state);
    none_open(state, seat);
    let deleted = spg_whole::delete(state, seat, row);
    none_open(state, seat);
    recorded(state, from, delete_outcome(deleted))
}
