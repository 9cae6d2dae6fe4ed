ghost use Rattle.std.specs.Prelude.{◌≡◌, length};
ghost use Rattle.spg_rows.specs.Right.{Right};
ghost use Rattle.spg_core.specs.Stage.{free};
ghost use Rattle.spg_core.specs.Seen.{stage_at, past_of};
ghost use Rattle.spg_whole.specs.Calls.{AllClosed};

use spg_base::{SeatNo, Span};
use spg_core::State;
use spg_opclass::OpClass;
use spg_report::{Outcome, Record};

/// How many events there are. The journal is right.
pub(crate) fn position<O: OpClass>(state: &State<O>) -> u64
    ensures count { result ≡ length state.now.journal }
    ensures right { Right O.meaning state.now.journal }
{
    state.journal().len()
}

/// The record of a command that began at this position.
pub(crate) fn recorded<O: OpClass>(state: &State<O>, from: u64, outcome: Outcome) -> Record
    ensures outcome { result.outcome ≡ outcome }
    ensures from { result.span.from ≡ from }
    ensures to { result.span.to ≡ length state.now.journal }
    ensures right { Right O.meaning state.now.journal }
{
    Record {
        span: Span {
            from,
            to: position(state),
        },
        outcome,
    }
}

/// Where no seat has anything open, this one is free. Nothing is done here.
pub(crate) fn none_open<O: OpClass>(state: &State<O>, by: SeatNo)
    requires closed { AllClosed (past_of state.now) }
    ensures { stage_at state.now by ≡ free }
{
    // What a seat has open is what the journal says.
    let _ = state.open_of(by);
}
