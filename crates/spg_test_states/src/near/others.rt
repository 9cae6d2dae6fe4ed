use crate::near::turns::{Turn, take_turn};
use spg_among::Between;
use spg_base::{Point, SeatNo};
use spg_core::State;
use spg_opclass::OpClass;

/// A seat that has a turn before each read of a search, while there are any.
#[derive(Drop)]
pub struct Others<'a> {
    by: SeatNo,
    turns: &'a [Turn],
    left: u64,
    all_done: bool,
}

impl<'a> Others<'a> {
    /// A seat with these turns to come.
    pub fn new(by: SeatNo, turns: &'a [Turn]) -> Others<'a> {
        Others {
            by,
            turns,
            left: turns.len() as u64,
            all_done: true,
        }
    }

    /// Whether no turn is left, and each was done.
    pub fn is_done(&self) -> bool {
        self.all_done && self.left == 0
    }
}

impl<O: OpClass<Key = Point>> Between<O> for Others<'_> {
    ghost left_of = { λ others. others.left };

    fn left(&self) -> u64 {
        self.left
    }

    fn go(&mut self, state: &mut State<O>, seat: SeatNo) {
        if self.by.number() == seat.number() || self.left == 0 {
            return;
        }
        if let Some((turn, rest)) = self.turns.split_first() {
            self.turns = rest;
            self.left -= 1;
            if !take_turn(state, self.by, *turn) {
                self.all_done = false;
            }
        }
    }
}
