// Calls that look at the index in one turn.
use crate::seat::Seat;
use spg_base::Row;
use spg_desk::{HeldAnswer, KeyAnswer, PagesAnswer, StatAnswer};
use spg_opclass::OpClass;
use std::sync::Wait;

impl<'a, O: OpClass> Seat<'a, O> {
    ghost use Rattle.std.specs.Prelude.{◌≡◌};
    ghost use Rattle.spg_desk.specs.Looks.{DidStat, DidAskHeld, DidAskKey, DidCopy};
    ghost use Rattle.spg_share.specs.Seats.{seat_name, knows};

    /// Counts pages and tuples, as they stand in one turn.
    pub fn stat<R: Wait>(&mut self, rt: &R) -> StatAnswer
        ensures same { seat_name self.new ≡ seat_name self.old }
        ensures did { DidStat O.meaning (knows self.old) (knows self.new) result }
    {
        let Some(pass) = self.pass.take() else {
            unreachable!()
        };
        let (pass, answer) = self.desk.stat(rt, pass);
        self.pass = Some(pass);
        answer
    }

    /// The seat that is waited for until the row may be inserted again. None exactly where nobody is
    /// waited for.
    pub fn held_by<R: Wait>(&mut self, rt: &R, row: Row) -> HeldAnswer
        ensures same { seat_name self.new ≡ seat_name self.old }
        ensures did { DidAskHeld O.meaning (knows self.old) (knows self.new) row result }
    {
        let Some(pass) = self.pass.take() else {
            unreachable!()
        };
        let (pass, answer) = self.desk.held_by(rt, pass, row);
        self.pass = Some(pass);
        answer
    }

    /// A copy of the key of the row's last life, or that it is a null. None where the row had no life,
    /// or its last was an insert that was given up.
    pub fn key_of<R: Wait>(&mut self, rt: &R, row: Row) -> KeyAnswer<O::Key>
        ensures same { seat_name self.new ≡ seat_name self.old }
        ensures did { DidAskKey O.meaning (knows self.old) (knows self.new) row result }
    {
        let Some(pass) = self.pass.take() else {
            unreachable!()
        };
        let (pass, answer) = self.desk.key_of(rt, pass, row);
        self.pass = Some(pass);
        answer
    }

    /// A copy of the pages as they stand in one turn.
    pub fn pages<R: Wait>(&mut self, rt: &R) -> PagesAnswer
        ensures same { seat_name self.new ≡ seat_name self.old }
        ensures did { DidCopy O.meaning (knows self.old) (knows self.new) result }
    {
        let Some(pass) = self.pass.take() else {
            unreachable!()
        };
        let (pass, answer) = self.desk.pages(rt, pass);
        self.pass = Some(pass);
        answer
    }
}
