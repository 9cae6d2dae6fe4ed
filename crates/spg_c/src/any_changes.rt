// Inserts, deletes and vacuums of an index of whichever class.
ghost use Rattle.std.specs.Prelude.{Some as Just, None as Nil};
ghost use Rattle.spg_c.specs.Any.{OnAny, OnPoints, OnTexts};
ghost use Rattle.spg_c.specs.Calls.{PutsText};
ghost use Rattle.spg_c.specs.Tells.{TellsInsert, TellsDelete, TellsVacuum};

use crate::any::AnyIndex;
use crate::calls::{kill, put, sweep};
use crate::refused::Refused;
use spgist::{ByteText, Index, OpClass, Point, Row, text};
use std::alloc::Global;

/// Inserts a row with the text of these bytes.
fn put_text<O: OpClass<Key = ByteText>>(
    alloc: Global,
    index: &mut Index<O>,
    row: Row,
    bytes: &[u8],
) -> Result<(), Refused>
    ensures { PutsText O.meaning index.old index.new row bytes.now result }
{
    if 3_900 < bytes.len() {
        return Err(Refused::Range);
    }
    match text(alloc, bytes) {
        Ok(text) => put(index, row, Some(text)),
        Err(_) => Err(Refused::Memory),
    }
}

impl AnyIndex {
    /// Inserts a row with its point.
    pub(crate) fn insert_point(&mut self, row: Row, at: Point) -> Result<(), Refused>
        ensures { OnPoints (λ O Recon m old new. TellsInsert m old new row (Just at) result) result self.old self.new }
    {
        match self {
            AnyIndex::Quad(index) => put(index, row, Some(at)),
            AnyIndex::Kd(index) => put(index, row, Some(at)),
            AnyIndex::Radix(_) => Err(Refused::Class),
            AnyIndex::Nothing => Err(Refused::Closed),
        }
    }

    /// Inserts a row with the text of these bytes, at most 3,900.
    pub(crate) fn insert_text(
        &mut self,
        alloc: Global,
        row: Row,
        bytes: &[u8],
    ) -> Result<(), Refused>
        ensures { OnTexts (λ O Recon m old new. PutsText m old new row bytes.now result) result self.old self.new }
    {
        match self {
            AnyIndex::Radix(index) => put_text(alloc, index, row, bytes),
            AnyIndex::Quad(_) | AnyIndex::Kd(_) => Err(Refused::Class),
            AnyIndex::Nothing => Err(Refused::Closed),
        }
    }

    /// Inserts a row with the null.
    pub(crate) fn insert_null(&mut self, row: Row) -> Result<(), Refused>
        ensures { OnAny (λ Key Cond O Recon m old new. TellsInsert m old new row Nil result) result self.old self.new }
    {
        match self {
            AnyIndex::Quad(index) => put(index, row, None),
            AnyIndex::Kd(index) => put(index, row, None),
            AnyIndex::Radix(index) => put(index, row, None),
            AnyIndex::Nothing => Err(Refused::Closed),
        }
    }

    /// Deletes a row.
    pub(crate) fn delete(&mut self, row: Row) -> Result<(), Refused>
        ensures { OnAny (λ Key Cond O Recon m old new. TellsDelete old new row result) result self.old self.new }
    {
        match self {
            AnyIndex::Quad(index) => kill(index, row),
            AnyIndex::Kd(index) => kill(index, row),
            AnyIndex::Radix(index) => kill(index, row),
            AnyIndex::Nothing => Err(Refused::Closed),
        }
    }

    /// Removes the entries of the rows that were deleted.
    pub(crate) fn vacuum(&mut self) -> Result<u64, Refused>
        ensures { OnAny (λ Key Cond O Recon m old new. TellsVacuum old new result) result self.old self.new }
    {
        match self {
            AnyIndex::Quad(index) => sweep(index),
            AnyIndex::Kd(index) => sweep(index),
            AnyIndex::Radix(index) => sweep(index),
            AnyIndex::Nothing => Err(Refused::Closed),
        }
    }
}
