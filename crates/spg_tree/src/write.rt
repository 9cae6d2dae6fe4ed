ghost use Rattle.std.specs.Prelude.{◌≡◌, ◌<◌, ◌≤◌, ◌+◌, length};
ghost use Rattle.spg_forest.specs.Sheets.{size_of};
ghost use Rattle.spg_page.specs.Changes.{room_of};
ghost use Rattle.spg_page.specs.Kinds.{IsOffset};
ghost use Rattle.spg_tree.specs.Table.{tuples_at};
ghost use Rattle.spg_tree.specs.Writes.{new_place, added_table, put_table, FitsInPlace};

use crate::table::PageTable;
use spg_base::{Block, Offset, Place};
use spg_page::TupleBytes;

impl PageTable {
    /// Adds a tuple to a page that has room, and tells at which offset.
    pub fn add_on(&mut self, block: Block, tuple: &TupleBytes) -> Offset
        requires block { (0 < block) × (block < length self.old.pages) }
        requires room { size_of tuple.now + 4 ≤ room_of (tuples_at self.old block) 1 }
        ensures at { result ≡ (new_place self.old block).offset }
        ensures table { self.new ≡ added_table self.old block tuple.now }
    {
        self.page_mut(block).add(tuple)
    }

    /// Puts a tuple in the place of another, where it fits.
    pub fn put_at(&mut self, at: &Place, tuple: &TupleBytes)
        requires block { (0 < at.now.block) × (at.now.block < length self.old.pages) }
        requires offset { IsOffset (tuples_at self.old at.now.block) at.now.offset }
        requires room { FitsInPlace (tuples_at self.old at.now.block) at.now.offset tuple.now }
        ensures { self.new ≡ put_table self.old at.now tuple.now }
    {
        self.page_mut(at.block).replace(at.offset, tuple);
    }
}
