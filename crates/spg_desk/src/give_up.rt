// How the operation of a seat is given up for want of memory.
ghost use Rattle.std.specs.Prelude.{◌≡◌, ◌≢◌, ◌∷◌, []};
ghost use Rattle.spg_core.specs.Seen.{stage_at};
ghost use Rattle.spg_core.specs.Stage.{free};
ghost use Rattle.spg_turn.specs.Passes.{pass_turn, pass_view};
ghost use Rattle.spg_calls.specs.Doing.{Doing, idle};
ghost use Rattle.spg_desk.specs.Knowing.{doing_at};
ghost use Rattle.spg_desk.specs.Told.{Told};
ghost use Rattle.spg_desk.specs.Acting.{IsStageFor, Adds, left_by};
ghost use Rattle.spg_desk.specs.Passes.{desk_id};

use crate::desk::Desk;
use crate::pass::Going;
use spg_base::{SeatNo, Span};
use spg_core::Bare;
use spg_opclass::OpClass;
use spg_rows::Why;
use std::sync::Wait;

/// Gives up what the seat has open, for want of memory.
pub(crate) fn give_up<O: OpClass>(bare: &mut Bare<O>, seat: SeatNo)
    requires operating { stage_at bare.old seat ≢ free }
    ensures { (doing : Doing O O.Key O.Recon O.Cond) → IsStageFor doing (stage_at bare.old seat) → Adds bare.old bare.new (left_by seat doing ∷ []) }
{
    bare.abandon(seat, Why::Given);
}

impl<O: OpClass> Desk<O> {
    /// A turn in which what the pass's seat has open is given up, for want of memory.
    pub(crate) fn give_up<R: Wait>(&self, rt: &R, going: Going<O>) -> (Going<O>, Span)
        requires own { pass_turn going.pass ≡ desk_id self.now }
        requires operating { doing_at (pass_view going.pass) ≢ idle }
        ensures own { pass_turn result.0.pass ≡ desk_id self.now }
        ensures told { Told O.meaning (pass_view going.pass) (pass_view result.0.pass) result.1 (left_by (pass_view going.pass).number (doing_at (pass_view going.pass)) ∷ []) }
    {
        let mut held = self.enter(rt, going);
        let seat = held.seat();
        let from = held.state().journal().len();
        give_up(held.state_mut(), seat);
        let (going, span) = self.leave(held, from);
        (going, span)
    }
}
