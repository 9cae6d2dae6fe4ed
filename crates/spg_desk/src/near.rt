// The nearest rows, in one turn.
ghost use Rattle.std.specs.Prelude.{◌≡◌, [], length, reverse, IfOk, IfSome};
ghost use Rattle.spg_core.specs.Stage.{free};
ghost use Rattle.spg_core.specs.Seen.{stage_at, past_of};
ghost use Rattle.spg_turn.specs.Passes.{pass_turn, pass_view};
ghost use Rattle.spg_calls.specs.Calls.{span_at};
ghost use Rattle.spg_calls.specs.Doing.{idle};
ghost use Rattle.spg_near.specs.Nearest.{AreNearest};
ghost use Rattle.spg_desk.specs.Knowing.{IsAtRest, doing_at};
ghost use Rattle.spg_desk.specs.Told.{Told};
ghost use Rattle.spg_desk.specs.Passes.{desk_id, desk_of, view_of};
ghost use Rattle.spg_desk.specs.Answers.{DidNear};

use crate::answer::NearAnswer;
use crate::desk::Desk;
use crate::pass::{Going, Pass};
use spg_base::{List, Memory, Point, SeatNo, Span};
use spg_core::Bare;
use spg_near::{NearClass, NearRow, Sought, search_now};
use std::alloc::Global;
use std::sync::Wait;

/// The nearest rows of the index that a turn lends. None where the search came to a block that another
/// seat holds.
fn nearest_in<O: NearClass>(
    alloc: Global,
    class: &O,
    bare: &Bare<O>,
    seat: SeatNo,
    target: Point,
    limit: u16,
) -> Result<Option<List<NearRow>>, Memory>
    requires free { stage_at bare.now seat ≡ free }
    ensures { IfOk result (λ out. IfSome out (λ rows. AreNearest (past_of bare.now) target limit rows)) }
{
    if limit == 0 {
        return Ok(Some(List::new(alloc)));
    }
    // The seat has nothing open after the journal.
    let _ = bare.open_of(seat);
    let at = bare.journal().len();
    let (pages, rows) = (bare.pages(), bare.rows());
    match search_now(alloc, class, pages, rows, seat, at, target, limit)? {
        Sought::Found { rows, .. } => Ok(Some(rows)),
        Sought::Latched { .. } => Ok(None),
    }
}

impl<O: NearClass> Desk<O> {
    /// The turn of a search. The class is asked within it.
    fn near_once<R: Wait>(
        &self,
        rt: &R,
        going: Going<O>,
        target: Point,
        limit: u16,
    ) -> (Going<O>, Span, Result<Option<List<NearRow>>, Memory>)
        requires own { pass_turn going.pass ≡ desk_id self.now }
        requires idle { doing_at (pass_view going.pass) ≡ idle }
        ensures own { pass_turn result.0.pass ≡ desk_id self.now }
        ensures told { Told O.meaning (pass_view going.pass) (pass_view result.0.pass) result.1 [] }
        ensures moment { result.1 ≡ span_at (length (pass_view result.0.pass).seen) (length (pass_view result.0.pass).seen) }
        ensures found { IfOk result.2 (λ out. IfSome out (λ rows. AreNearest (reverse (pass_view result.0.pass).seen) target limit rows)) }
    {
        let held = self.enter(rt, going);
        let seat = held.seat();
        let from = held.state().journal().len();
        let found = nearest_in(self.alloc, &self.class, held.state(), seat, target, limit);
        let (going, span) = self.leave(held, from);
        (going, span, found)
    }

    /// The live rows nearest to a point, `limit` at most, each with the square of its distance: by
    /// distance, then by row. A row whose key is null is none of them. They are those of one turn, in
    /// which the whole search is done, and nothing is added to the journal. Where another seat holds a
    /// block on the way it is done again in the next turn.
    pub fn near<R: Wait>(
        &self,
        rt: &R,
        pass: Pass<O>,
        target: Point,
        limit: u16,
    ) -> (Pass<O>, NearAnswer)
        requires own { desk_of pass ≡ desk_id self.now }
        ensures own { desk_of result.0 ≡ desk_of pass }
        ensures did { DidNear O.meaning (view_of pass) (view_of result.0) target limit result.1 }
        ensures free { IsAtRest (view_of result.0) }
    {
        let Pass { going } = pass;
        let mut going = going;
        for _ in rt.forever() {
            let (next, span, found) = self.near_once(rt, going, target, limit);
            going = next;
            match found {
                Ok(Some(rows)) => return (Pass { going }, NearAnswer::Near { rows, span }),
                Ok(None) => {}
                Err(Memory) => return (Pass { going }, NearAnswer::Memory(span)),
            }
        }
        unreachable!()
    }
}
