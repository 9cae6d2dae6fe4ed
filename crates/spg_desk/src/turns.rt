// One turn of the lock: how a section begins and ends.
ghost use Rattle.std.specs.Prelude.{◌≡◌, ◌++◌, [], List, length, drop};
ghost use Rattle.std.specs.List.{AllByRecursion};
ghost use Rattle.spg_rows.specs.declared.event.Event.{Event as Entry};
ghost use Rattle.spg_rows.specs.History.{seat_of};
ghost use Rattle.spg_core.specs.Seen.{stage_at};
ghost use Rattle.spg_turn.specs.Passes.{pass_turn, pass_view, held_turn, held_view, held_state};
ghost use Rattle.spg_calls.specs.Calls.{Watched, span_at};
ghost use Rattle.spg_desk.specs.Knowing.{doing_at, IsLent};
ghost use Rattle.spg_desk.specs.Told.{Told};
ghost use Rattle.spg_desk.specs.Acting.{IsStageFor};
ghost use Rattle.spg_desk.specs.Passes.{desk_id};

use crate::desk::Desk;
use crate::pass::Going;
use spg_base::Span;
use spg_core::Bare;
use spg_opclass::OpClass;
use spg_rows::Event;
use spg_turn::Held;
use std::sync::Wait;

impl<O: OpClass> Desk<O> {
    /// Takes the pass's turn. The index lent has of the pass's seat just what the pass added, and the
    /// seat is at the stage of what it does.
    pub(crate) fn enter<R: Wait>(&self, rt: &R, going: Going<O>) -> Held<Bare<O>, Event<O>>
        requires own { pass_turn going.pass ≡ desk_id self.now }
        ensures own { held_turn result ≡ desk_id self.now }
        ensures view { held_view result ≡ record (pass_view going.pass) { seen = (held_state result).journal } }
        ensures origin { (held_state result).origin ≡ (held_view result).origin }
        ensures lent { IsLent (held_view result) }
        ensures watched { Watched (pass_view going.pass).number (pass_view going.pass).seen (held_state result).journal }
        ensures stage { IsStageFor (doing_at (pass_view going.pass)) (stage_at (held_state result) (pass_view going.pass).number) }
    {
        let Going { pass } = going;
        let held = self.turn.enter(rt, pass);
        // What a seat has open is what the journal says.
        let seat = held.seat();
        let _open = held.state().open_of(seat);
        held
    }

    /// Gives the index back, to whose journal the seat alone has added. `from` is how long that was.
    pub(crate) fn leave(&self, held: Held<Bare<O>, Event<O>>, from: u64) -> (Going<O>, Span)
        requires own { held_turn held ≡ desk_id self.now }
        requires lent { IsLent (held_view held) }
        requires from { from ≡ length (held_view held).seen }
        requires grown { (more : List (Entry O O.Key O.Recon O.Cond)) × ((held_state held).journal ≡ (held_view held).seen ++ more) × AllByRecursion (λ e. seat_of e ≡ (held_view held).number) more }
        requires origin { (held_state held).origin ≡ (held_view held).origin }
        ensures own { pass_turn result.0.pass ≡ desk_id self.now }
        ensures span { result.1 ≡ span_at (length (held_view held).seen) (length (pass_view result.0.pass).seen) }
        ensures seen { (pass_view result.0.pass).seen ≡ (held_state held).journal }
        ensures told { Told O.meaning (held_view held) (pass_view result.0.pass) result.1 (drop (length (held_view held).seen) (held_state held).journal) }
    {
        // The journal is right.
        let to = held.state().journal().len();
        let pass = self.turn.leave(held);
        (Going { pass }, Span { from, to })
    }

    /// A turn in which nothing is done.
    pub(crate) fn look<R: Wait>(&self, rt: &R, going: Going<O>) -> (Going<O>, Span)
        requires own { pass_turn going.pass ≡ desk_id self.now }
        ensures own { pass_turn result.0.pass ≡ desk_id self.now }
        ensures told { Told O.meaning (pass_view going.pass) (pass_view result.0.pass) result.1 [] }
    {
        let held = self.enter(rt, going);
        let from = held.state().journal().len();
        let (going, span) = self.leave(held, from);
        (going, span)
    }
}
