ghost use Rattle.std.specs.Prelude.{◌≡◌, ◌≤◌, Bool, IfOk, OnErr};
ghost use Rattle.std.specs.BTreeSet.{contains};
ghost use Rattle.spg_base.specs.Row.{RowAt, row_cmp};
ghost use Rattle.spg_forest.specs.Shape.{Shape};
ghost use Rattle.spg_cover.specs.Vacuum.{Of, AreHigh};
ghost use Rattle.spg_tree.specs.Table.{sheets_of};

use crate::done::{Done, Work};
use crate::handle::handle_block;
use crate::latch::other_holder;
use crate::pending::Pending;
use crate::place::handle_place;
use spg_base::{Block, Memory, RowSet, SeatNo, Stamp};
use spg_opclass::OpClass;
use spg_tree::{PageTable, Touched};
use std::alloc::Global;

/// An open vacuum. Its targets are the rows that were deleted when it opened and are not swept. It
/// handles the blocks from 1 on in their order, and between them the places of its pending list.
#[derive(Drop)]
pub struct Vacuum {
    at: u64,
    stamp: Stamp,
    next: u32,
    swept: u64,
    pending: Pending,
}

impl Vacuum {
    ghost use Rattle.spg_vacuum.specs.declared.done.Work.TheVariants as works;
    ghost use Rattle.spg_vacuum.specs.Listing.{none_listed};
    ghost use Rattle.spg_vacuum.specs.Vacuums.{work_of, next_block, IsVacuum, IsNextFree, IsNextHeld, BlockDone, FirstDone, KeepsVacuum, LeavesNone};

    /// A vacuum that opens at a journal position and at the clock's stamp: at block 1, with nothing
    /// pending. It takes no memory.
    pub fn open(alloc: Global, at: u64, stamp: Stamp) -> Vacuum
        ensures { result ≡ record { at = at; stamp = stamp; next = 1; swept = 0; pending = none_listed } }
    {
        Vacuum {
            at,
            stamp,
            next: 1,
            swept: 0,
            pending: Pending::new(alloc),
        }
    }

    /// The journal position at which it opened.
    pub fn at(&self) -> u64
        ensures { result ≡ self.now.at }
    {
        self.at
    }

    /// The clock's stamp at which it opened.
    pub fn stamp(&self) -> Stamp
        ensures { result ≡ self.now.stamp }
    {
        self.stamp
    }

    /// What it does next: a place of the pending list where one is not done, else the next block where
    /// that is below the page count, else it is at its end. It takes no memory.
    pub fn work(&self, table: &PageTable) -> Work
        ensures { result ≡ work_of self.now table.now }
    {
        if self.pending.first().is_some() {
            Work::Pending
        } else if self.next < table.page_count() {
            Work::Block
        } else {
            Work::Finish
        }
    }

    /// The block that is handled next. None at the end.
    fn next_block(&self, table: &PageTable) -> Option<Block>
        ensures value { result ≡ next_block self.now table.now }
        ensures high { AreHigh self.now.pending.todo }
    {
        match self.pending.first() {
            Some(place) => Some(place.block),
            None if self.next < table.page_count() => Some(Block(self.next)),
            None => None,
        }
    }

    /// The block that is handled next and the other seat that holds it. None exactly where no other seat
    /// does, or the vacuum is at its end. It takes no memory.
    pub fn held_next<O: OpClass>(&self, table: &PageTable, seat: SeatNo) -> Option<(Block, SeatNo)>
        requires shape { Shape O.meaning (sheets_of table.now) }
        requires vacuum { (test : RowAt → Bool) × IsVacuum O.meaning table.now self.now (Of test) }
        ensures { IsNextHeld table.now self.now seat result }
    {
        let block = self.next_block(table)?;
        let by = other_holder(table, block, seat)?;
        Some((block, by))
    }

    /// Handles the next block. On a leaf page the targets are swept, and what its redirects lead to
    /// whose stamps are not below the vacuum's is listed; redirects of stamps below the horizon become
    /// placeholders, and placeholders at the end are removed. `Latched` comes exactly where another seat
    /// holds the block, and wants no memory. After `Memory` table and vacuum are as they were.
    pub fn block_section<O: OpClass>(
        &mut self,
        alloc: Global,
        table: &mut PageTable,
        targets: &RowSet,
        horizon: Stamp,
        seat: SeatNo,
    ) -> Result<Done, Memory>
        requires next { work_of self.old table.old ≡ works.Block }
        requires shape { Shape O.meaning (sheets_of table.old) }
        requires vacuum { IsVacuum O.meaning table.old self.old (Of (contains row_cmp targets.now.rows)) }
        requires horizon { horizon ≤ self.old.stamp }
        ensures done { IfOk result (λ done. BlockDone table.old table.new self.old self.new (contains row_cmp targets.now.rows) horizon seat done) }
        ensures keeps { IfOk result (λ done. KeepsVacuum O.meaning table.old table.new self.new (contains row_cmp targets.now.rows) horizon done) }
        ensures latched { OnErr result (IsNextFree table.old self.old seat) }
        ensures err { OnErr result (table.new ≡ table.old) }
        ensures err_vacuum { OnErr result (self.new ≡ self.old) }
    {
        let _count = table.page_count();
        let block = Block(self.next);
        if let Some(by) = other_holder(table, block, seat) {
            table.set_touched(Touched::new());
            return Ok(Done::Latched { block, by });
        }
        let since = self.stamp;
        let rows = handle_block::<O>(
            alloc,
            table,
            &mut self.pending,
            block,
            targets,
            since,
            horizon,
        )?;
        self.next += 1;
        self.swept = self.swept.saturating_add(rows.len() as u64);
        Ok(Done::Swept(rows))
    }

    /// Handles the first place of the pending list that is not done. On a leaf page its whole page is
    /// handled as a block's is; on an inner page what the tuple there leads to is listed: where its
    /// nodes lead, in their order, or the target of a redirect. The place is done then, and the list is
    /// emptied once all are. `Latched` comes exactly where another seat holds the block, and wants no
    /// memory. After `Memory` table and vacuum are as they were.
    pub fn pending_section<O: OpClass>(
        &mut self,
        alloc: Global,
        table: &mut PageTable,
        targets: &RowSet,
        horizon: Stamp,
        seat: SeatNo,
    ) -> Result<Done, Memory>
        requires next { work_of self.old table.old ≡ works.Pending }
        requires shape { Shape O.meaning (sheets_of table.old) }
        requires vacuum { IsVacuum O.meaning table.old self.old (Of (contains row_cmp targets.now.rows)) }
        requires horizon { horizon ≤ self.old.stamp }
        ensures done { IfOk result (λ done. FirstDone table.old table.new self.old self.new (contains row_cmp targets.now.rows) horizon seat done) }
        ensures keeps { IfOk result (λ done. KeepsVacuum O.meaning table.old table.new self.new (contains row_cmp targets.now.rows) horizon done) }
        ensures latched { OnErr result (IsNextFree table.old self.old seat) }
        ensures err { OnErr result (table.new ≡ table.old) }
        ensures err_vacuum { OnErr result (self.new ≡ self.old) }
    {
        let Some(place) = self.pending.first() else {
            unreachable!()
        };
        let block = place.block;
        if let Some(by) = other_holder(table, block, seat) {
            table.set_touched(Touched::new());
            return Ok(Done::Latched { block, by });
        }
        let since = self.stamp;
        let rows = handle_place::<O>(
            alloc,
            table,
            &mut self.pending,
            place,
            targets,
            since,
            horizon,
        )?;
        self.pending.mark_first();
        self.swept = self.swept.saturating_add(rows.len() as u64);
        Ok(Done::Swept(rows))
    }

    /// The number of rows swept. No target is left then. It takes no memory.
    pub fn finish<O: OpClass>(&mut self, table: &PageTable) -> u64
        requires { work_of self.old table.now ≡ works.Finish }
        ensures swept { result ≡ self.old.swept }
        ensures same { self.new ≡ self.old }
        ensures none { LeavesNone O.meaning table.now self.old }
    {
        prove!(self.work(table) == Work::Finish);
        self.swept
    }
}
