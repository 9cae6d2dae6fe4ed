ghost use Rattle.std.specs.Prelude.{◌≡◌, Bool};
ghost use Rattle.spg_core.specs.Stage.{free};
ghost use Rattle.spg_core.specs.Seen.{stage_at};
ghost use Rattle.spg_script.specs.declared.command.Command.TheVariants.{Stat};
ghost use Rattle.spg_commands.specs.Acted.{Acts};
ghost use Rattle.spg_perform.specs.Remains.{CountTells};

use crate::position::{position, recorded};
use spg_base::SeatNo;
use spg_core::State;
use spg_report::{Outcome, Record};
use spg_script::Spoken;

/// Counts the tuples, which needs no memory. The leaf tuples are those of the rows that are present.
pub(crate) fn stat<O: Spoken>(state: &State<O>, seat: SeatNo) -> Record
    requires free { stage_at state.now seat ≡ free }
    ensures acts { (alone : Bool) → Acts O.meaning O.speech state.now state.now seat alone Stat result }
    ensures counts { CountTells Stat result.outcome }
{
    let from = position(state);
    let _ = state.pages();
    let counts = state.stat();
    recorded(state, from, Outcome::Stat(counts))
}
