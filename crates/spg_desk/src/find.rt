ghost use Rattle.std.specs.Prelude.{◌≡◌};
ghost use Rattle.spg_turn.specs.Passes.{pass_turn, pass_view};
ghost use Rattle.spg_calls.specs.Doing.{idle};
ghost use Rattle.spg_desk.specs.Knowing.{IsAtRest, doing_at};
ghost use Rattle.spg_desk.specs.Told.{Told};
ghost use Rattle.spg_desk.specs.Acting.{IsScan, scan_events, readings, closings, closed_by};
ghost use Rattle.spg_desk.specs.Passes.{desk_id, desk_of, view_of};
ghost use Rattle.spg_desk.specs.Answers.{DidFind, ended_find};

use crate::answer::FindAnswer;
use crate::desk::Desk;
use crate::ended::Read;
use crate::pass::{Going, Pass};
use crate::scan::{read_on, sift_on};
use crate::span::joined;
use spg_base::{Memory, Rows, Span};
use spg_opclass::{Copied, OpClass, Query, sift};
use std::sync::Wait;

/// How the section ended the scan, if it did.
fn closed_by<O: OpClass>(read: Read<O>) -> Option<Result<Rows, Memory>>
    ensures { result ≡ closed_by read }
{
    match read {
        Read::On | Read::Sift { .. } => None,
        Read::Closed(rows) => Some(Ok(rows)),
        Read::Refused => Some(Err(Memory)),
    }
}

/// What a search answers that has ended.
fn ended_find(closed: Result<Rows, Memory>, span: Span) -> FindAnswer
    ensures { result ≡ ended_find closed span }
{
    match closed {
        Ok(rows) => FindAnswer::Found { rows, span },
        Err(Memory) => FindAnswer::Memory(span),
    }
}

impl<O: OpClass> Desk<O> {
    /// The turn in which a scan opens.
    fn open_scan<R: Wait>(
        &self,
        rt: &R,
        going: Going<O>,
        query: Query<O>,
        start: O::Recon,
    ) -> (Going<O>, Span, Result<(), Memory>)
        requires own { pass_turn going.pass ≡ desk_id self.now }
        requires idle { doing_at (pass_view going.pass) ≡ idle }
        requires start { start ≡ O.meaning.start }
        ensures own { pass_turn result.0.pass ≡ desk_id self.now }
        ensures told { Told O.meaning (pass_view going.pass) (pass_view result.0.pass) result.1 (scan_events (pass_view going.pass).number query result.2) }
    {
        let mut held = self.enter(rt, going);
        let seat = held.seat();
        let from = held.state().journal().len();
        let opened = held.state_mut().open_scan(seat, query, start);
        let (going, span) = self.leave(held, from);
        (going, span, opened)
    }

    /// The turn of a section of a scan.
    fn read<R: Wait>(&self, rt: &R, going: Going<O>) -> (Going<O>, Span, Read<O>)
        requires own { pass_turn going.pass ≡ desk_id self.now }
        requires scanning { IsScan (doing_at (pass_view going.pass)) }
        ensures own { pass_turn result.0.pass ≡ desk_id self.now }
        ensures told { Told O.meaning (pass_view going.pass) (pass_view result.0.pass) result.1 (readings (pass_view going.pass).number result.2) }
    {
        let mut held = self.enter(rt, going);
        let seat = held.seat();
        let from = held.state().journal().len();
        let read = read_on(held.state_mut(), seat);
        let (going, span) = self.leave(held, from);
        (going, span, read)
    }

    /// Asks the class to sift the copy of an item, and then the turn that takes its answer in.
    fn sift<R: Wait>(
        &self,
        rt: &R,
        going: Going<O>,
        item: usize,
        copied: Copied<O>,
    ) -> (Going<O>, Span, Read<O>)
        requires own { pass_turn going.pass ≡ desk_id self.now }
        requires scanning { IsScan (doing_at (pass_view going.pass)) }
        ensures own { pass_turn result.0.pass ≡ desk_id self.now }
        ensures told { Told O.meaning (pass_view going.pass) (pass_view result.0.pass) result.1 (readings (pass_view going.pass).number result.2) }
    {
        let Ok(sifted) = sift(self.alloc, &self.class, copied) else {
            let (going, span) = self.give_up(rt, going);
            return (going, span, Read::Refused);
        };
        let mut held = self.enter(rt, going);
        let seat = held.seat();
        let from = held.state().journal().len();
        let read = sift_on(held.state_mut(), seat, item, &sifted);
        let (going, span) = self.leave(held, from);
        (going, span, read)
    }

    /// The next section of a scan, with what the class says of it.
    fn read_once<R: Wait>(&self, rt: &R, going: Going<O>) -> (Going<O>, Span, Read<O>)
        requires own { pass_turn going.pass ≡ desk_id self.now }
        requires scanning { IsScan (doing_at (pass_view going.pass)) }
        ensures own { pass_turn result.0.pass ≡ desk_id self.now }
        ensures told { Told O.meaning (pass_view going.pass) (pass_view result.0.pass) result.1 (readings (pass_view going.pass).number result.2) }
    {
        let (going, span, read) = self.read(rt, going);
        match read {
            Read::Sift { item, copied } => self.sift(rt, going, item, copied),
            other => (going, span, other),
        }
    }

    /// The sections of a scan, until it has ended.
    fn scan<R: Wait>(&self, rt: &R, going: Going<O>) -> (Going<O>, Span, Result<Rows, Memory>)
        requires own { pass_turn going.pass ≡ desk_id self.now }
        requires scanning { IsScan (doing_at (pass_view going.pass)) }
        ensures own { pass_turn result.0.pass ≡ desk_id self.now }
        ensures told { Told O.meaning (pass_view going.pass) (pass_view result.0.pass) result.1 (closings (pass_view going.pass).number result.2) }
    {
        let mut going = going;
        for _ in rt.forever() {
            let (next, span, read) = self.read_once(rt, going);
            going = next;
            let closed = closed_by(read);
            if let Some(closed) = closed {
                return (going, span, closed);
            }
        }
        unreachable!()
    }

    /// Finds the rows that the query asks for, by a scan that is opened, read to its end and closed.
    /// After a refusal for want of memory it is given up.
    pub fn find<R: Wait>(&self, rt: &R, pass: Pass<O>, query: Query<O>) -> (Pass<O>, FindAnswer)
        requires own { desk_of pass ≡ desk_id self.now }
        ensures own { desk_of result.0 ≡ desk_of pass }
        ensures did { DidFind O.meaning (view_of pass) (view_of result.0) query result.1 }
        ensures free { IsAtRest (view_of result.0) }
    {
        let Pass { going } = pass;
        let Ok(start) = self.class.start(self.alloc) else {
            let (going, span) = self.look(rt, going);
            return (Pass { going }, FindAnswer::Memory(span));
        };
        let (going, first, opened) = self.open_scan(rt, going, query, start);
        if let Err(Memory) = &opened {
            return (Pass { going }, FindAnswer::Memory(first));
        }
        let (going, last, closed) = self.scan(rt, going);
        (Pass { going }, ended_find(closed, joined(first, last)))
    }
}
