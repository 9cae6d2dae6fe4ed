//! A question about a town, and its answer.
use spgist::{Index, List, Memory, Point, PointCond, Quad, Rows, find_some};
use std::alloc::Global;

/// The most houses of an answer.
const MOST: usize = 50;

/// Which houses lie in a rectangle? None are told before a thread has looked, nor where memory was wanting.
#[derive(Drop)]
pub struct Question {
    pub low: Point,
    pub high: Point,
    pub houses: Option<Rows>,
}

impl Question {
    ghost use Rattle.std.specs.Prelude.{IfOk};
    ghost use Rattle.spgist.specs.Quad.{quad_meaning};
    ghost use Rattle.spg_example_readers.specs.Answers.{AreIn, IsAnswered};

    /// Houses in the rectangle.
    pub fn search(&self, alloc: Global, town: &Index<Quad>) -> Result<Rows, Memory>
        ensures { IfOk result (AreIn quad_meaning town.now self.now.low self.now.high) }
    {
        let mut conds = List::new(alloc);
        conds.push(PointCond::Inside {
            x1: self.low.x,
            y1: self.low.y,
            x2: self.high.x,
            y2: self.high.y,
        })?;
        find_some(alloc, town, conds, MOST)
    }

    /// Looks for the houses.
    pub fn answer(&mut self, alloc: Global, town: &Index<Quad>)
        ensures { IsAnswered quad_meaning town.now self.old self.new }
    {
        self.houses = self.search(alloc, town).ok();
    }
}
