// Searches of an index of whichever class, and its counts.
ghost use Rattle.spg_c.specs.Any.{OnAny, OnPoints, OnTexts};
ghost use Rattle.spg_c.specs.Calls.{FindsAll, FindsNull, SeeksConds, TellsStat};
ghost use Rattle.spg_c.specs.Conds.{point_cond_of, text_cond_of};
ghost use Rattle.spg_c.specs.Tells.{TellsNear};

use crate::any::AnyIndex;
use crate::calls::{count, nearest, seek};
use crate::conds::{SpgPointCond, SpgTextCond};
use crate::refused::Refused;
use crate::seeking::{seek_points, seek_texts};
use spgist::{List, NearRow, Point, Query, Rows, Stat};
use std::alloc::Global;

impl AnyIndex {
    /// Finds every row.
    pub(crate) fn find_all(&mut self) -> Result<Rows, Refused>
        ensures { FindsAll self.old self.new result }
    {
        match self {
            AnyIndex::Quad(index) => seek(index, Query::All),
            AnyIndex::Kd(index) => seek(index, Query::All),
            AnyIndex::Radix(index) => seek(index, Query::All),
            AnyIndex::Nothing => Err(Refused::Closed),
        }
    }

    /// Finds the rows whose key is the null.
    pub(crate) fn find_null(&mut self) -> Result<Rows, Refused>
        ensures { FindsNull self.old self.new result }
    {
        match self {
            AnyIndex::Quad(index) => seek(index, Query::Null),
            AnyIndex::Kd(index) => seek(index, Query::Null),
            AnyIndex::Radix(index) => seek(index, Query::Null),
            AnyIndex::Nothing => Err(Refused::Closed),
        }
    }

    /// Finds the rows whose point meets each condition.
    pub(crate) fn find_points(
        &mut self,
        alloc: Global,
        conds: &[SpgPointCond],
    ) -> Result<Rows, Refused>
        ensures { OnPoints (λ O Recon m old new. SeeksConds point_cond_of m old new conds.now result) result self.old self.new }
    {
        match self {
            AnyIndex::Quad(index) => seek_points(alloc, index, conds),
            AnyIndex::Kd(index) => seek_points(alloc, index, conds),
            AnyIndex::Radix(_) => Err(Refused::Class),
            AnyIndex::Nothing => Err(Refused::Closed),
        }
    }

    /// Finds the rows whose text meets each condition.
    pub(crate) fn find_texts(
        &mut self,
        alloc: Global,
        bytes: &[u8],
        conds: &[SpgTextCond],
    ) -> Result<Rows, Refused>
        ensures { OnTexts (λ O Recon m old new. SeeksConds (text_cond_of bytes.now) m old new conds.now result) result self.old self.new }
    {
        match self {
            AnyIndex::Radix(index) => seek_texts(alloc, index, bytes, conds),
            AnyIndex::Quad(_) | AnyIndex::Kd(_) => Err(Refused::Class),
            AnyIndex::Nothing => Err(Refused::Closed),
        }
    }

    /// The rows nearest to a point, `limit` at most.
    pub(crate) fn near(
        &self,
        alloc: Global,
        target: Point,
        limit: u16,
    ) -> Result<List<NearRow>, Refused>
        ensures { OnPoints (λ O Recon m old new. TellsNear old target limit result) result self.now self.now }
    {
        match self {
            AnyIndex::Quad(index) => nearest(alloc, index, target, limit),
            AnyIndex::Kd(index) => nearest(alloc, index, target, limit),
            AnyIndex::Radix(_) => Err(Refused::Class),
            AnyIndex::Nothing => Err(Refused::Closed),
        }
    }

    /// How many pages and how many tuples of each kind there are, and the clock.
    pub(crate) fn stat(&self) -> Result<Stat, Refused>
        ensures { OnAny (λ Key Cond O Recon m old new. TellsStat old result) result self.now self.now }
    {
        match self {
            AnyIndex::Quad(index) => count(index),
            AnyIndex::Kd(index) => count(index),
            AnyIndex::Radix(index) => count(index),
            AnyIndex::Nothing => Err(Refused::Closed),
        }
    }
}
