ghost use Rattle.std.specs.Prelude.{Bool};
ghost use Rattle.spg_core.specs.Seen.{past_of};
ghost use Rattle.spg_script.specs.Speech.{IsKnown};
ghost use Rattle.spg_script.specs.declared.command.Command.TheVariants.{Insert};
ghost use Rattle.spg_whole.specs.Calls.{AllClosed};
ghost use Rattle.spg_commands.specs.Acted.{Acts};

use crate::answers::insert_outcome;
use crate::position::{none_open, position, recorded};
use spg_base::{Memory, Row, SeatNo};
use spg_commands::key_in;
use spg_core::State;
use spg_report::{Outcome, Record};
use spg_script::{AnyKey, Spoken};

/// Inserts a row with its key, where the row is not claimed. Where there is no room, no moment of the
/// clock or no memory, the insert is given up. No seat has anything open.
pub(crate) fn insert<O: Spoken>(
    state: &mut State<O>,
    seat: SeatNo,
    row: Row,
    key: &Option<AnyKey>,
) -> Record
    requires closed { AllClosed (past_of state.old) }
    requires known { IsKnown O.speech (Insert row key.now) }
    ensures { (alone : Bool) → Acts O.meaning O.speech state.old state.new seat alone (Insert row key.now) result }
{
    let from = position(state);
    // The limit of the state is that of its pages.
    let _limit = state.origin();
    none_open(state, seat);
    let found = match key_in(state.class(), key) {
        Ok(Some(found)) => found,
        Ok(None) => unreachable!(),
        Err(Memory) => return recorded(state, from, Outcome::Memory),
    };
    let inserted = spg_whole::insert(state, seat, row, found);
    none_open(state, seat);
    recorded(state, from, insert_outcome(inserted))
}
