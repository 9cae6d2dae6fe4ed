ghost use Rattle.std.specs.Prelude.{true};
ghost use Rattle.spg_core.specs.Seen.{past_of};
ghost use Rattle.spg_script.specs.Speech.{IsKnown};
ghost use Rattle.spg_script.specs.declared.command.Command.TheVariants.{Find};
ghost use Rattle.spg_whole.specs.Calls.{AllClosed};
ghost use Rattle.spg_commands.specs.Acted.{Acts};

use crate::answers::find_outcome;
use crate::position::{none_open, position, recorded};
use spg_base::{Memory, SeatNo};
use spg_commands::query_in;
use spg_core::State;
use spg_report::{Outcome, Record};
use spg_script::{AnyQuery, Spoken};
use std::alloc::Global;

/// Finds rows. Where there is no memory, it is given up. No seat has anything open.
pub(crate) fn find<O: Spoken>(
    alloc: Global,
    state: &mut State<O>,
    seat: SeatNo,
    query: &AnyQuery,
) -> Record
    requires closed { AllClosed (past_of state.old) }
    requires known { IsKnown O.speech (Find query.now) }
    ensures { Acts O.meaning O.speech state.old state.new seat true (Find query.now) result }
{
    let from = position(state);
    none_open(state, seat);
    let query = match query_in(alloc, state.class(), query) {
        Ok(Some(query)) => query,
        Ok(None) => unreachable!(),
        Err(Memory) => return recorded(state, from, Outcome::Memory),
    };
    let found = spg_whole::find(state, seat, query);
    none_open(state, seat);
    recorded(state, from, find_outcome(found))
}
