ghost use Rattle.std.specs.Prelude.{false, ◌≡◌, ◌≢◌, ◌<◌, ◌≤◌, ◌^◌, ℕ, Option, None, IfOk};
ghost use Rattle.spg_base.specs.declared.recorded.Origin.{Origin};
ghost use Rattle.spg_forest.specs.Shape.{Shape, Represents};
ghost use Rattle.spg_verdict.specs.Entries.{AreEntries};
ghost use Rattle.spg_core.specs.Loading.{IsLoaded};
ghost use Rattle.spg_base.specs.Row.{RowAt};
ghost use Rattle.spg_rows.specs.Table.{state_in, key_in};
ghost use Rattle.spg_rows.specs.Rows.{state_of, held_by};
ghost use Rattle.spg_rows.specs.Right.{Right};
ghost use Rattle.spg_rows.specs.History.{open_of};
ghost use Rattle.spg_tree.specs.Table.{sheets_of, latch_at};
ghost use Rattle.spg_seats.specs.Slots.{StageFits, LatchesAre, kept_key};
ghost use Rattle.spg_bounds.specs.Bounds.{AreBounded, DropsAreLate};
ghost use Rattle.spg_seats.specs.Drops.{HaveCauses};
ghost use Rattle.spg_core.specs.Stage.{free, IsStageOf, MayGiveUp, kind_of};
ghost use Rattle.spg_core.specs.Since.{opened_at};
ghost use Rattle.spg_core.specs.Seen.{stage_at, past_of, IsPresentWith};
ghost use Rattle.spg_core.specs.Kept.{RootsAreHeavy};
ghost use Rattle.spg_core.specs.Counts.{IsStat};
ghost use Rattle.spg_core.specs.Sections.{IsNew, GivesUp};
ghost use Rattle.spg_core.specs.Calls.{IsCall, IsWhole, given};

use crate::answer::OpenKind;
use crate::kept::Kept;
use spg_base::{Memory, Origin, Row, SeatNo, Stamp, Stat};
use spg_keys::Listed;
use spg_opclass::OpClass;
use spg_rows::{Journal, RowTable, Why};
use spg_tree::{PageTable, Touched};
use std::alloc::Global;
use std::marker::Model;

/// An index, what each of 64 seats has open, and the journal of all that was done. A seat has at most
/// one operation open. The sections of the seats come in any order. It is one word and goes from hand
/// to hand as such: all that it keeps stands in a box.
#[derive(Drop)]
pub struct Bare<O: OpClass> {
    pub(crate) alloc: Global,
    pub(crate) kept: Box<Kept<O>>,
}

impl<O: OpClass> Model for Bare<O> {
    ghost use Rattle.spg_core.specs.Seen.{Seen};

    ghost Value = { Seen O O.Key O.Recon O.Cond };

    ghost view = { λ s. s.kept.value };
}

impl<O: OpClass> Bare<O> {
    /// An empty index of at most `limit` pages, 4 to 131,072.
    pub fn new(alloc: Global, limit: u32) -> Result<Bare<O>, Memory>
        requires from { 4 ≤ limit }
        requires to { limit ≤ 131072 }
        ensures { IfOk result (λ state. IsNew limit state) }
    {
        let kept = Kept::new(alloc, limit)?;
        Bare::keep(alloc, kept)
    }

    /// The index of a table of well formed pages on which nobody has a latch, and of the list of their
    /// entries. Its journal opens and puts each entry, in their order, by seat 0.
    pub fn adopt(
        alloc: Global,
        table: PageTable,
        listed: &[Listed<O::Key>],
    ) -> Result<Bare<O>, Memory>
        requires shape { Shape O.meaning (sheets_of table) }
        requires entries { AreEntries O.meaning (sheets_of table) listed.now }
        requires latches { (b : ℕ) → latch_at table b ≡ None }
        ensures { IfOk result (λ state. IsLoaded table listed.now state) }
    {
        let kept = Kept::adopt(alloc, table, listed)?;
        Bare::keep(alloc, kept)
    }

    /// An index that keeps this.
    fn keep(alloc: Global, kept: Kept<O>) -> Result<Bare<O>, Memory>
        ensures { IfOk result (λ state. state ≡ kept) }
    {
        let kept = Box::new(alloc, kept)?;
        Ok(Bare { alloc, kept })
    }

    /// With what the state was made. The limit is that of the pages.
    pub fn origin(&self) -> Origin
        ensures value { result ≡ self.now.origin }
        ensures limit { self.now.table.limit ≡ result.limit }
    {
        self.kept.origin()
    }

    /// The journal. It is legal, and each closed scan and each closed vacuum is right. The state keeps
    /// all that a state keeps, so any calls may follow (`seen_laws`).
    pub fn journal(&self) -> &Journal<O>
        ensures events { result.now.events ≡ self.now.journal }
        ensures right { Right O.meaning self.now.journal }
        ensures whole { IsWhole O.meaning self.now }
    {
        self.kept.journal()
    }

    /// The state of each row, and the key of each that is not free. They are what the journal says.
    pub fn rows(&self) -> &RowTable<O>
        ensures states { (row : RowAt) → state_in result.now row ≡ state_of row (past_of self.now) }
        ensures keys { (row : RowAt) → key_in result.now row ≡ kept_key row (past_of self.now) }
    {
        self.kept.rows()
    }

    /// The pages. They are well formed and hold just the rows that are present, each with its key. A
    /// root is an inner tuple only where the keys of its tree that were ever inserted take more than
    /// 8,160 bytes, unless the state was made of an image. A block is latched by a seat exactly where the seat's open insert stands on it or
    /// has the tuple above on it. Where an insert was given up as the index was full, fewer than 4
    /// blocks are left below the limit; where one was as the clock was at its end, it is there. There
    /// are at most 8 pages more than at the origin for each insert that was opened, and the clock has
    /// gone on by 3 at most for each; so an insert was given up only where enough were opened.
    pub fn pages(&self) -> &PageTable
        ensures value { result.now ≡ self.now.table }
        ensures represents { Represents O.meaning (sheets_of self.now.table) (IsPresentWith (past_of self.now)) }
        ensures heavy { self.now.origin.loaded ≡ false → RootsAreHeavy O.meaning self.now.table (past_of self.now) }
        ensures latches { LatchesAre self.now.table self.now.stages }
        ensures drops { HaveCauses (past_of self.now) self.now.table }
        ensures bounds { AreBounded self.now.origin self.now.table (past_of self.now) }
        ensures late { DropsAreLate self.now.origin (past_of self.now) }
    {
        self.kept.pages()
    }

    /// The clock, below 2^48.
    pub fn clock(&self) -> u64
        ensures value { result ≡ self.now.table.clock }
        ensures in_range { self.now.table.clock < 2 ^ 48 }
    {
        self.kept.clock()
    }

    /// The blocks that the last section of an insert or of a vacuum changed or added. A call that is
    /// none leaves it empty.
    pub fn touched(&self) -> &Touched
        ensures { result.now ≡ self.now.table.touched }
    {
        self.kept.touched()
    }

    /// How many pages and how many tuples of each kind there are, and the clock. It looks at all
    /// tuples, and takes no memory.
    pub fn stat(&self) -> Stat
        ensures { IsStat self.now.table result }
    {
        self.kept.stat()
    }

    /// What the seat has open. It is what the journal says. An open insert carries its key to where it
    /// stands, what a scan holds covers the rows that it must give, and what a vacuum has still to see
    /// covers the rows that it must sweep.
    pub fn open_of(&self, seat: SeatNo) -> OpenKind
        ensures kind { result ≡ kind_of (stage_at self.now seat) }
        ensures journal { IsStageOf (open_of seat (past_of self.now)) (stage_at self.now seat) }
        ensures fits { StageFits O.meaning self.now.table (past_of self.now) seat (stage_at self.now seat) }
    {
        self.kept.open_of(seat)
    }

    /// The position in the journal and the clock at which the seat's scan or vacuum opened. None exactly
    /// where it has neither open.
    pub fn opened(&self, seat: SeatNo) -> Option<(u64, Stamp)>
        ensures { result ≡ opened_at (stage_at self.now seat) }
    {
        self.kept.opened(seat)
    }

    /// The seat that is waited for until the row may be inserted again: that of the vacuum that swept
    /// its entry, until this ends; then the lowest one whose scan was open at that end and still is.
    /// None exactly where nobody is waited for.
    pub fn held_by(&self, row: Row) -> Option<SeatNo>
        ensures { result ≡ held_by row (past_of self.now) }
    {
        self.kept.held_by(row)
    }

    /// Gives up what the seat has open: an insert with this cause, `Full` only where fewer than 4
    /// blocks are left below the limit, `Clock` only where the clock is 2^48 - 1. The seat has nothing
    /// latched then. It takes no memory.
    pub fn abandon(&mut self, seat: SeatNo, why: Why)
        requires open { stage_at self.old seat ≢ free }
        requires why { MayGiveUp self.old.table (stage_at self.old seat) why }
        ensures up { GivesUp self.old self.new seat why }
        ensures call { IsCall O.meaning self.old self.new seat (given (stage_at self.old seat) why) }
    {
        self.kept.abandon(seat, why)
    }
}
