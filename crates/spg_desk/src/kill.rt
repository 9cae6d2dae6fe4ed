ghost use Rattle.std.specs.Prelude.{◌≡◌};
ghost use Rattle.spg_desk.specs.Knowing.{IsAtRest};
ghost use Rattle.spg_desk.specs.Passes.{desk_id, desk_of, view_of};
ghost use Rattle.spg_desk.specs.Answers.{DidKill, kill_answer};

use crate::answer::KillAnswer;
use crate::desk::Desk;
use crate::pass::Pass;
use spg_base::{Memory, Row, Span};
use spg_opclass::OpClass;
use std::sync::Wait;

/// What a delete answers.
fn kill_answer(killed: Result<bool, Memory>, span: Span) -> KillAnswer
    ensures { result ≡ kill_answer killed span }
{
    match killed {
        Ok(true) => KillAnswer::Killed(span),
        Ok(false) => KillAnswer::NotLive(span),
        Err(Memory) => KillAnswer::Memory(span),
    }
}

impl<O: OpClass> Desk<O> {
    /// Deletes the row. `Killed` exactly where it is live in its turn, and else nothing changes. For a row
    /// that is not live no memory is wanted.
    pub fn kill<R: Wait>(&self, rt: &R, pass: Pass<O>, row: Row) -> (Pass<O>, KillAnswer)
        requires own { desk_of pass ≡ desk_id self.now }
        ensures own { desk_of result.0 ≡ desk_of pass }
        ensures did { DidKill O.meaning (view_of pass) (view_of result.0) row result.1 }
        ensures free { IsAtRest (view_of result.0) }
    {
        let Pass { going } = pass;
        let mut held = self.enter(rt, going);
        let seat = held.seat();
        let from = held.state().journal().len();
        let killed = held.state_mut().kill(seat, row);
        let (going, span) = self.leave(held, from);
        (Pass { going }, kill_answer(killed, span))
    }
}
