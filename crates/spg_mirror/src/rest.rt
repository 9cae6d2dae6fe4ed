ghost use Rattle.std.specs.Prelude.{◌≡◌, length};
ghost use Rattle.spg_rows.specs.Right.{Right};
ghost use Rattle.spg_core.specs.Stage.{free};
ghost use Rattle.spg_core.specs.Seen.{stage_at, past_of};
ghost use Rattle.spg_whole.specs.Calls.{AllClosed};

use spg_base::SeatNo;
use spg_opclass::OpClass;
use spg_standby::Pair;

/// How many events the primary of a pair has, between its calls.
pub(crate) fn position<O: OpClass>(pair: &Pair<O>) -> u64
    ensures count { result ≡ length pair.now.primary.journal }
    ensures right { Right O.meaning pair.now.primary.journal }
    ensures closed { AllClosed (past_of pair.now.primary) }
    ensures free { stage_at pair.now.primary 0 ≡ free }
    ensures limit { pair.now.primary.table.limit ≡ pair.now.primary.origin.limit }
{
    let state = pair.primary();
    // What a seat has open is what the journal says, and the limit of the state is that of its pages.
    let _ = state.open_of(SeatNo::first());
    let _ = state.origin();
    state.journal().len()
}
