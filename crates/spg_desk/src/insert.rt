ghost use Rattle.std.specs.Prelude.{◌≡◌, ◌<◌, Some, length};
ghost use Rattle.spg_turn.specs.Passes.{pass_turn, pass_view};
ghost use Rattle.spg_calls.specs.Doing.{idle};
ghost use Rattle.spg_desk.specs.Knowing.{IsAtRest, doing_at};
ghost use Rattle.spg_desk.specs.Acting.{IsPut, TellsPut, TellsLook, OpensPut};
ghost use Rattle.spg_desk.specs.Passes.{desk_id, desk_of, view_of};
ghost use Rattle.spg_desk.specs.Answers.{DidInsert, refused_insert, ended_insert};

use crate::answer::InsertAnswer;
use crate::desk::Desk;
use crate::ended::{Ended, Looked};
use crate::pass::{Going, Pass};
use crate::put::{choose_on, look_on, part_on};
use crate::span::joined;
use spg_base::{Row, Span};
use spg_core::OpenRefused;
use spg_opclass::{Bunch, OpClass, Spotted, Started, choose_at, part_at, start_at};
use std::sync::Wait;

/// What an insert answers that was not opened.
fn refused_insert(refused: &OpenRefused, span: Span) -> InsertAnswer
    ensures { result ≡ refused_insert refused.now span }
{
    match refused {
        OpenRefused::RowUsed => InsertAnswer::RowUsed(span),
        OpenRefused::RowHeld { by } => InsertAnswer::RowHeld { by: *by, span },
        OpenRefused::Memory => InsertAnswer::Memory(span),
    }
}

/// What an insert answers that has ended.
fn ended_insert(end: Ended, span: Span) -> InsertAnswer
    ensures { result ≡ ended_insert end span }
{
    match end {
        Ended::Put => InsertAnswer::Added(span),
        Ended::Full => InsertAnswer::IndexFull(span),
        Ended::Clock => InsertAnswer::ClockFull(span),
        Ended::Refused => InsertAnswer::Memory(span),
    }
}

impl<O: OpClass> Desk<O> {
    /// The turn in which an insert opens.
    fn open_insert<R: Wait>(
        &self,
        rt: &R,
        going: Going<O>,
        row: Row,
        started: Started<O>,
    ) -> (Going<O>, Span, Result<(), OpenRefused>)
        requires own { pass_turn going.pass ≡ desk_id self.now }
        requires idle { doing_at (pass_view going.pass) ≡ idle }
        ensures own { pass_turn result.0.pass ≡ desk_id self.now }
        ensures told { OpensPut O.meaning (pass_view going.pass) (pass_view result.0.pass) result.1 row started result.2 }
    {
        let mut held = self.enter(rt, going);
        let seat = held.seat();
        let from = held.state().journal().len();
        let opened = held.state_mut().open_insert(seat, row, started);
        let (going, span) = self.leave(held, from);
        (going, span, opened)
    }

    /// The turn of a section of an insert of which the class has no say, or of the copies for it.
    fn look_at_insert<R: Wait>(&self, rt: &R, going: Going<O>) -> (Going<O>, Span, Looked<O>)
        requires own { pass_turn going.pass ≡ desk_id self.now }
        requires putting { IsPut (doing_at (pass_view going.pass)) }
        ensures own { pass_turn result.0.pass ≡ desk_id self.now }
        ensures told { TellsLook O.meaning (pass_view going.pass) (pass_view result.0.pass) result.1 result.2 }
    {
        let mut held = self.enter(rt, going);
        let seat = held.seat();
        let from = held.state().journal().len();
        let looked = look_on(held.state_mut(), seat);
        let (going, span) = self.leave(held, from);
        (going, span, looked)
    }

    /// Asks the class at a copied inner tuple, and then the turn of the section that it chose.
    fn choose<R: Wait>(
        &self,
        rt: &R,
        going: Going<O>,
        spotted: Spotted<O>,
    ) -> (Going<O>, Span, Option<Ended>)
        requires own { pass_turn going.pass ≡ desk_id self.now }
        requires putting { IsPut (doing_at (pass_view going.pass)) }
        ensures own { pass_turn result.0.pass ≡ desk_id self.now }
        ensures told { TellsPut O.meaning (pass_view going.pass) (pass_view result.0.pass) result.1 result.2 }
    {
        let Ok(chosen) = choose_at(self.alloc, &self.class, spotted) else {
            let (going, span) = self.give_up(rt, going);
            return (going, span, Some(Ended::Refused));
        };
        let mut held = self.enter(rt, going);
        let seat = held.seat();
        let from = held.state().journal().len();
        let end = choose_on(held.state_mut(), seat, &chosen);
        let (going, span) = self.leave(held, from);
        (going, span, end)
    }

    /// Asks the class to divide copied values, and then the turn of the section that does so.
    fn part<R: Wait>(
        &self,
        rt: &R,
        going: Going<O>,
        bunch: Bunch<O>,
    ) -> (Going<O>, Span, Option<Ended>)
        requires own { pass_turn going.pass ≡ desk_id self.now }
        requires putting { IsPut (doing_at (pass_view going.pass)) }
        requires some { 0 < length bunch.rests }
        ensures own { pass_turn result.0.pass ≡ desk_id self.now }
        ensures told { TellsPut O.meaning (pass_view going.pass) (pass_view result.0.pass) result.1 result.2 }
    {
        let Ok(parted) = part_at(self.alloc, &self.class, bunch) else {
            let (going, span) = self.give_up(rt, going);
            return (going, span, Some(Ended::Refused));
        };
        let mut held = self.enter(rt, going);
        let seat = held.seat();
        let from = held.state().journal().len();
        let end = part_on(held.state_mut(), seat, &parted);
        let (going, span) = self.leave(held, from);
        (going, span, end)
    }

    /// The next section of an insert.
    fn put_once<R: Wait>(&self, rt: &R, going: Going<O>) -> (Going<O>, Span, Option<Ended>)
        requires own { pass_turn going.pass ≡ desk_id self.now }
        requires putting { IsPut (doing_at (pass_view going.pass)) }
        ensures own { pass_turn result.0.pass ≡ desk_id self.now }
        ensures told { TellsPut O.meaning (pass_view going.pass) (pass_view result.0.pass) result.1 result.2 }
    {
        let (going, span, looked) = self.look_at_insert(rt, going);
        match looked {
            Looked::Stepped(end) => (going, span, end),
            Looked::Choose(spotted) => self.choose(rt, going, spotted),
            Looked::Part(bunch) => self.part(rt, going, bunch),
        }
    }

    /// The sections of an insert, until it has ended.
    fn put<R: Wait>(&self, rt: &R, going: Going<O>) -> (Going<O>, Span, Ended)
        requires own { pass_turn going.pass ≡ desk_id self.now }
        requires putting { IsPut (doing_at (pass_view going.pass)) }
        ensures own { pass_turn result.0.pass ≡ desk_id self.now }
        ensures told { TellsPut O.meaning (pass_view going.pass) (pass_view result.0.pass) result.1 (Some result.2) }
    {
        let mut going = going;
        for _ in rt.forever() {
            let (next, span, end) = self.put_once(rt, going);
            going = next;
            if let Some(end) = end {
                return (going, span, end);
            }
        }
        unreachable!()
    }

    /// Inserts a row with its key, or with a null. `RowUsed` exactly where the row is claimed and waits
    /// for nobody, `RowHeld` exactly where it waits for this seat, both in the turn in which the insert
    /// would open. `IndexFull` and `ClockFull` only where so many inserts were opened that it could come to
    /// that, with 8 pages and 3 ticks of the clock for each, and the keys of its tree that were ever inserted
    /// take more than 8,160 bytes. The insert is given up then, and after a refusal for want of memory.
    pub fn insert<R: Wait>(
        &self,
        rt: &R,
        pass: Pass<O>,
        row: Row,
        key: Option<O::Key>,
    ) -> (Pass<O>, InsertAnswer)
        requires own { desk_of pass ≡ desk_id self.now }
        ensures own { desk_of result.0 ≡ desk_of pass }
        ensures did { DidInsert O.meaning (view_of pass) (view_of result.0) row key result.1 }
        ensures free { IsAtRest (view_of result.0) }
    {
        let Pass { going } = pass;
        let Ok(started) = start_at(self.alloc, &self.class, key) else {
            let (going, span) = self.look(rt, going);
            return (Pass { going }, InsertAnswer::Memory(span));
        };
        let (going, first, opened) = self.open_insert(rt, going, row, started);
        if let Err(refused) = &opened {
            return (Pass { going }, refused_insert(refused, first));
        }
        let (going, last, end) = self.put(rt, going);
        (Pass { going }, ended_insert(end, joined(first, last)))
    }
}
