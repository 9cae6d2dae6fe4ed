use crate::seat::Seat;
use spg_base::Point;
use spg_desk::NearAnswer;
use spg_near::NearClass;
use std::sync::Wait;

impl<'a, O: NearClass> Seat<'a, O> {
    ghost use Rattle.std.specs.Prelude.{◌≡◌};
    ghost use Rattle.spg_desk.specs.Answers.{DidNear};
    ghost use Rattle.spg_share.specs.Seats.{seat_name, knows};

    /// Finds the live rows nearest to a point, `limit` at most, each with the square of its distance: by
    /// distance, then by row. A row whose key is null is none of them. The whole search is done in one
    /// turn, in which the other seats wait.
    pub fn near<R: Wait>(&mut self, rt: &R, target: Point, limit: u16) -> NearAnswer
        ensures same { seat_name self.new ≡ seat_name self.old }
        ensures did { DidNear O.meaning (knows self.old) (knows self.new) target limit result }
    {
        let Some(pass) = self.pass.take() else {
            unreachable!()
        };
        let (pass, answer) = self.desk.near(rt, pass, target, limit);
        self.pass = Some(pass);
        answer
    }
}
