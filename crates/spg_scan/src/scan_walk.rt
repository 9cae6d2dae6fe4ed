// A scan is a walk.
ghost use Rattle.std.specs.Prelude.{◌≡◌, ◌<◌, true, length, IfOk, OnErr};
ghost use Rattle.spg_forest.specs.Shape.{Shape};
ghost use Rattle.spg_tree.specs.Table.{latch_at, sheets_of};
ghost use Rattle.spg_scan.specs.Reading.{IsHeld, IsFreeFor, IsReadOut};
ghost use Rattle.spg_scan.specs.Parts.{HasPlace, EntriesLive, other_than};

use crate::liveness::Liveness;
use crate::scan::Scan;
use crate::walk::{Closed, ReadOut, Walk};
use spg_base::{Block, List, Memory, SeatNo};
use spg_opclass::OpClass;
use spg_rows::RowTable;
use spg_sort::sort_rows;
use spg_tree::PageTable;
use std::alloc::Global;

/// The seat that holds a block, where it is another than this one.
pub fn held_by_other(table: &PageTable, block: Block, seat: SeatNo) -> Option<SeatNo>
    requires { block < length table.now.pages }
    ensures { result ≡ other_than seat (latch_at table.now block) }
{
    match table.latch_of(block) {
        Some(by) if by != seat => Some(by),
        _ => None,
    }
}

impl<O: OpClass> Scan<O> {
    /// Reads an item that is a place.
    fn read_held(
        &mut self,
        alloc: Global,
        class: &O,
        table: &PageTable,
        liveness: &Liveness<O>,
        item: usize,
        seat: SeatNo,
    ) -> Result<ReadOut, Memory>
        requires shape { Shape O.meaning (sheets_of table.now) }
        requires item { item < length self.old.items }
        requires held { IsHeld O.meaning (sheets_of table.now) self.old item }
        requires live { liveness.now.all_live ≡ true → EntriesLive O.meaning (sheets_of table.now) liveness.now.table.now }
        requires place { HasPlace self.old.items item }
        ensures ok { IfOk result (λ out. IsReadOut O.meaning table.now liveness.now.table.now self.old self.new item seat out) }
        ensures latched { OnErr result (IsFreeFor table.now self.old item seat) }
        ensures err { OnErr result (self.new ≡ self.old) }
    {
        let place = self.place_at(item);
        let block = place.block;
        match held_by_other(table, block, seat) {
            Some(by) => Ok(ReadOut::Latched { block, by }),
            None => {
                self.read_at(alloc, Some(*class), table, liveness, item, place)?;
                Ok(ReadOut::Read)
            }
        }
    }

    /// Reads a held item, as `Walk::read` does. Where it is told that each row that has an entry is live,
    /// it looks up none.
    pub fn read_told(
        &mut self,
        alloc: Global,
        class: &O,
        table: &PageTable,
        liveness: &Liveness<O>,
        item: usize,
        seat: SeatNo,
    ) -> Result<ReadOut, Memory>
        requires shape { Shape O.meaning (sheets_of table.now) }
        requires item { item < length self.old.items }
        requires held { IsHeld O.meaning (sheets_of table.now) self.old item }
        requires live { liveness.now.all_live ≡ true → EntriesLive O.meaning (sheets_of table.now) liveness.now.table.now }
        ensures ok { IfOk result (λ out. IsReadOut O.meaning table.now liveness.now.table.now self.old self.new item seat out) }
        ensures latched { OnErr result (IsFreeFor table.now self.old item seat) }
        ensures err { OnErr result (self.new ≡ self.old) }
    {
        match self.copy_of(item)? {
            Some(copied) => {
                self.read_copy(alloc, class, item, copied)?;
                Ok(ReadOut::Read)
            }
            None => self.read_held(alloc, class, table, liveness, item, seat),
        }
    }
}

impl<O: OpClass> Walk<O> for Scan<O> {
    ghost scanning = { λ s. s };

    fn held(&self) -> usize {
        self.items.len()
    }

    fn read(
        &mut self,
        alloc: Global,
        class: &O,
        table: &PageTable,
        rows: &RowTable<O>,
        item: usize,
        seat: SeatNo,
    ) -> Result<ReadOut, Memory> {
        self.read_told(alloc, class, table, &Liveness::of(rows), item, seat)
    }

    fn close(&mut self) -> Result<Closed, Memory> {
        let alloc = *self.rows.allocator();
        let mut rows = std::mem::replace(&mut self.rows, Vec::new(alloc));
        sort_rows(&mut rows);
        Ok(Closed {
            rows: List::from_vec(rows),
            met: self.met,
        })
    }
}
