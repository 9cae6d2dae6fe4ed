ghost use Rattle.std.specs.Prelude.{true, false, ◌≡◌, ◌≢◌, ◌<◌, ◌≤◌, ◌+◌, ◌^◌, ◌↔◌, ◌⊎◌, [], ℕ, suc, length, Option, Some, None, MatchResult, IfOk, OnOk, OnErr, IsErrOf, IsTrue};
ghost use Rattle.spg_base.specs.declared.recorded.Origin.{Origin};
ghost use Rattle.spg_forest.specs.Shape.{Represents};
ghost use Rattle.spg_base.specs.Row.{RowAt};
ghost use Rattle.spg_rows.specs.Table.{state_in, key_in};
ghost use Rattle.spg_rows.specs.Rows.{state_of, is_live, held_by};
ghost use Rattle.spg_rows.specs.Told.{IsUsed};
ghost use Rattle.spg_rows.specs.Right.{Right};
ghost use Rattle.spg_rows.specs.declared.table.RowState.TheVariants as row_state;
ghost use Rattle.spg_rows.specs.declared.event.Event.TheVariants as event;
ghost use Rattle.spg_rows.specs.History.{open_of};
ghost use Rattle.spg_tree.specs.Table.{sheets_of, latch_at, AreRoots};
ghost use Rattle.spg_clauses.specs.Order.{tests, Holds, IsFirst};
ghost use Rattle.spg_core.specs.Loading.{IsAdopted};
ghost use Rattle.spg_seats.specs.Slots.{StageFits, LatchesAre, kept_key};
ghost use Rattle.spg_scan.specs.Others.{ChangesPages};
ghost use Rattle.spg_seats.specs.Descending.{ChangesHeld};
ghost use Rattle.spg_bounds.specs.Bounds.{AreBounded, DropsAreLate};
ghost use Rattle.spg_seats.specs.Drops.{HaveCauses};
ghost use Rattle.spg_core.specs.Stage.{free, IsInserting, IsSweeping, IsRead, IsStageOf, MayGiveUp, held_count, kind_of};
ghost use Rattle.spg_core.specs.Since.{opened_at};
ghost use Rattle.spg_core.specs.Seen.{stage_at, past_of, HasClass, with_class, IsPresentWith};
ghost use Rattle.spg_core.specs.Stepping.{IsNearLimit, Grows, MakesAtMostOne};
ghost use Rattle.spg_core.specs.Blocked.{IsItemFree, IsWorkFree};
ghost use Rattle.spg_core.specs.Ends.{SeatEnds, SeatThenEnds};
ghost use Rattle.spg_core.specs.Kept.{RootsAreHeavy};
ghost use Rattle.spg_core.specs.Counts.{IsStat};
ghost use Rattle.spg_core.specs.Waiting.{is_used};
ghost use Rattle.spg_core.specs.Sections.{IsNew, OpensInsert, IsInsertOut, TellsSection, LatchesAfter, OthersHold, IsHeavy, SeatFindsNoPage, SeatTicks, KillsRow, OpensScan, ReadsItem, ClosesScan, OpensVacuum, StepsVacuum, GivesUp};
ghost use Rattle.spg_core.specs.Runs.{opens_insert, opens_scan, reads, closes, opens_vacuum};
ghost use Rattle.spg_core.specs.Calls.{IsCall, Inserts, WorksOn, SweepsPages, IsWhole, kill_of, given};

use crate::answer::{InsertOut, OpenKind, OpenRefused, VacuumOut, VacuumRefused};
use crate::bare::Bare;
use spg_base::{Memory, Origin, Row, SeatNo, Stamp, Stat};
use spg_clauses::Fault;
use spg_opclass::{OpClass, Query, start_at};
use spg_rows::{Journal, RowTable, Why};
use spg_scan::{Closed, ReadOut};
use spg_tree::{PageTable, StepRefused, Touched};
use spg_verdict::survey;
use std::alloc::Global;
use std::marker::Model;

/// An index with the class of its keys: a `Bare` index whose sections ask the class at once. A seat has
/// at most one operation open. The sections of the seats come in any order. The class is a part of the
/// state that contracts read, and no call changes it.
#[derive(Drop)]
pub struct State<O: OpClass> {
    class: O,
    bare: Bare<O>,
}

impl<O: OpClass> Model for State<O> {
    ghost use Rattle.spg_core.specs.Seen.{Seen, with_class};

    ghost Value = { Seen O O.Key O.Recon O.Cond };

    ghost view = { λ s. with_class s.bare s.class };
}

impl<O: OpClass> State<O> {
    /// An empty index of at most `limit` pages, 4 to 131,072.
    pub fn new(alloc: Global, class: O, limit: u32) -> Result<State<O>, Memory>
        requires from { 4 ≤ limit }
        requires to { limit ≤ 131072 }
        ensures new { IfOk result (λ state. IsNew limit state) }
        ensures class { IfOk result (λ state. HasClass state class) }
    {
        Ok(State {
            class,
            bare: Bare::new(alloc, limit)?,
        })
    }

    /// The index of a table of pages on which nobody has a latch, where no clause from that on kinds on
    /// fails, or which fails first. Its journal opens and puts each entry, in order of block and offset,
    /// by seat 0.
    pub fn adopt(
        alloc: Global,
        class: O,
        table: PageTable,
    ) -> Result<Result<State<O>, Fault>, Memory>
        requires roots { AreRoots table.pages }
        requires latches { (b : ℕ) → latch_at table b ≡ None }
        ensures value { IfOk result (λ came. MatchResult came (λ state. IsAdopted O.meaning table state) (λ fault. IsFirst (Holds O.meaning (sheets_of table)) (tests (length table.pages)) fault)) }
        ensures class { IfOk result (λ came. IfOk came (λ state. HasClass state class)) }
    {
        match survey(alloc, class, &table)? {
            Err(fault) => Ok(Err(fault)),
            Ok(listed) => {
                let bare = Bare::adopt(alloc, table, &listed)?;
                Ok(Ok(State { class, bare }))
            }
        }
    }

    /// The class and the index without it. It takes no memory.
    pub fn part(self) -> (O, Bare<O>)
        ensures { with_class result.1 result.0 ≡ self }
    {
        (self.class, self.bare)
    }

    /// The index of a class. It takes no memory.
    pub fn whole(class: O, bare: Bare<O>) -> State<O>
        ensures { result ≡ with_class bare class }
    {
        State { class, bare }
    }

    /// The class of the keys.
    pub fn class(&self) -> &O
        ensures { HasClass self.now result.now }
    {
        &self.class
    }

    /// With what the state was made. The limit is that of the pages.
    pub fn origin(&self) -> Origin
        ensures value { result ≡ self.now.origin }
        ensures limit { self.now.table.limit ≡ result.limit }
    {
        self.bare.origin()
    }

    /// The journal. It is legal, and each closed scan and each closed vacuum is right. The state keeps
    /// all that a state keeps, so any calls may follow (`seen_laws`).
    pub fn journal(&self) -> &Journal<O>
        ensures events { result.now.events ≡ self.now.journal }
        ensures right { Right O.meaning self.now.journal }
        ensures whole { IsWhole O.meaning self.now }
    {
        self.bare.journal()
    }

    /// The state of each row, and the key of each that is not free. They are what the journal says.
    pub fn rows(&self) -> &RowTable<O>
        ensures states { (row : RowAt) → state_in result.now row ≡ state_of row (past_of self.now) }
        ensures keys { (row : RowAt) → key_in result.now row ≡ kept_key row (past_of self.now) }
    {
        self.bare.rows()
    }

    /// The pages. They are well formed and hold just the rows that are present, each with its key. A
    /// root is an inner tuple only where the keys of its tree that were ever inserted take more than
    /// 8,160 bytes, unless the state was made of an image. A block is latched by a seat exactly where the seat's open insert stands on it or
    /// has the tuple above on it. Where an insert was given up as the index was full, fewer than 4
    /// blocks are left below the limit; where one was as the clock was at its end, it is there. There
    /// are at most 8 pages more than at the origin for each insert that was opened, and the clock has
    /// gone on by 3 at most for each; so an insert was given up only where enough were opened.
    pub fn pages(&self) -> &PageTable
        ensures value { result.now ≡ self.now.table }
        ensures represents { Represents O.meaning (sheets_of self.now.table) (IsPresentWith (past_of self.now)) }
        ensures heavy { self.now.origin.loaded ≡ false → RootsAreHeavy O.meaning self.now.table (past_of self.now) }
        ensures latches { LatchesAre self.now.table self.now.stages }
        ensures drops { HaveCauses (past_of self.now) self.now.table }
        ensures bounds { AreBounded self.now.origin self.now.table (past_of self.now) }
        ensures late { DropsAreLate self.now.origin (past_of self.now) }
    {
        self.bare.pages()
    }

    /// The clock, below 2^48.
    pub fn clock(&self) -> u64
        ensures value { result ≡ self.now.table.clock }
        ensures in_range { self.now.table.clock < 2 ^ 48 }
    {
        self.bare.clock()
    }

    /// The blocks that the last section of an insert or of a vacuum changed or added. A call that is
    /// none leaves it empty.
    pub fn touched(&self) -> &Touched
        ensures { result.now ≡ self.now.table.touched }
    {
        self.bare.touched()
    }

    /// How many pages and how many tuples of each kind there are, and the clock. It looks at all
    /// tuples, and takes no memory.
    pub fn stat(&self) -> Stat
        ensures { IsStat self.now.table result }
    {
        self.bare.stat()
    }

    /// What the seat has open. It is what the journal says. An open insert carries its key to where it
    /// stands, what a scan holds covers the rows that it must give, and what a vacuum has still to see
    /// covers the rows that it must sweep.
    pub fn open_of(&self, seat: SeatNo) -> OpenKind
        ensures kind { result ≡ kind_of (stage_at self.now seat) }
        ensures journal { IsStageOf (open_of seat (past_of self.now)) (stage_at self.now seat) }
        ensures fits { StageFits O.meaning self.now.table (past_of self.now) seat (stage_at self.now seat) }
    {
        self.bare.open_of(seat)
    }

    /// The position in the journal and the clock at which the seat's scan or vacuum opened. None exactly
    /// where it has neither open.
    pub fn opened(&self, seat: SeatNo) -> Option<(u64, Stamp)>
        ensures { result ≡ opened_at (stage_at self.now seat) }
    {
        self.bare.opened(seat)
    }

    /// The seat that is waited for until the row may be inserted again: that of the vacuum that swept
    /// its entry, until this ends; then the lowest one whose scan was open at that end and still is.
    /// None exactly where nobody is waited for.
    pub fn held_by(&self, row: Row) -> Option<SeatNo>
        ensures { result ≡ held_by row (past_of self.now) }
    {
        self.bare.held_by(row)
    }

    /// Opens an insert. It claims the row. `RowUsed` exactly where the row is claimed, and waits for
    /// nobody. `RowHeld` exactly where it waits for this seat.
    pub fn open_insert(
        &mut self,
        seat: SeatNo,
        row: Row,
        key: Option<O::Key>,
    ) -> Result<(), OpenRefused>
        requires free { stage_at self.old seat ≡ free }
        ensures ok { OnOk result (OpensInsert O.meaning self.old self.new seat row key) }
        ensures call { OnOk result (IsCall O.meaning self.old self.new seat (opens_insert row key)) }
        ensures row_used { IsErrOf result OpenRefused.RowUsed ↔ IsUsed (past_of self.old) row }
        ensures row_held { (by : ℕ) → IsErrOf result (OpenRefused.RowHeld by) ↔ (held_by row (past_of self.old) ≡ Some by) }
        ensures err { OnErr result (self.new ≡ self.old) }
    {
        match start_at(self.bare.alloc, &self.class, key) {
            Ok(started) => self.bare.open_insert(seat, row, started),
            Err(Memory) => match self.bare.may_claim(row) {
                Ok(()) => Err(OpenRefused::Memory),
                Err(refused) => Err(refused),
            },
        }
    }

    /// The next section of an insert (docs/ALGORITHM.md, Insert). `ClockFull` comes exactly where a chain
    /// moves, one below a root is divided, or a tuple with one more node does not fit in its place, and the
    /// clock is 2^48 - 1, unless memory is short before; `IndexFull` exactly where a pick of the section
    /// finds no page, unless the clock or want of memory stops it before. Both only where the keys of its
    /// tree that were ever inserted take more than 8,160 bytes. `Restarted` comes only where another seat
    /// has latched the block that it names: the insert is at its start then. At its start, and once its row
    /// is put, the seat has latched no block.
    pub fn insert_step(&mut self, seat: SeatNo) -> Result<InsertOut, StepRefused>
        requires inserting { IsInserting (stage_at self.old seat) }
        ensures ok { IfOk result (λ out. IsInsertOut self.old self.new seat out) }
        ensures call { IfOk result (λ out. Inserts O.meaning self.old self.new seat out) }
        ensures told { IfOk result (λ out. TellsSection O.meaning self.old self.new seat out) }
        ensures changes { IfOk result (λ _. ChangesPages O.meaning (past_of self.old) seat (sheets_of self.old.table) (sheets_of self.new.table) self.new.table.touched 0) }
        ensures latches { IfOk result (λ out. LatchesAfter self.new seat out) }
        ensures others { OthersHold self.old.table self.new.table seat }
        ensures within { ChangesHeld self.old.table self.new.table seat }
        ensures grows { Grows self.old.table self.new.table }
        ensures makes { IfOk result (λ _. MakesAtMostOne self.old.table self.new.table) }
        ensures ends { IfOk result (λ out. (n : ℕ) → SeatEnds O.meaning self.old seat (suc n) → SeatThenEnds O.meaning self.new seat n out) }
        ensures full { IsErrOf result StepRefused.IndexFull → IsHeavy O.meaning self.old seat × IsNearLimit self.old.table }
        ensures clock { IsErrOf result StepRefused.ClockFull → IsHeavy O.meaning self.old seat × (self.old.table.clock + 1 ≡ 2 ^ 48) }
        ensures full_where { IsErrOf result StepRefused.IndexFull → SeatFindsNoPage O.meaning self.old seat }
        ensures clock_where { IsErrOf result StepRefused.ClockFull → SeatTicks O.meaning self.old seat }
        ensures clock_first { SeatTicks O.meaning self.old seat → self.old.table.clock + 1 ≡ 2 ^ 48 → IsErrOf result StepRefused.ClockFull ⊎ IsErrOf result StepRefused.Memory }
        ensures no_page { SeatFindsNoPage O.meaning self.old seat → (SeatTicks O.meaning self.old seat → self.old.table.clock + 1 ≡ 2 ^ 48 → ⊥) → IsErrOf result StepRefused.IndexFull ⊎ IsErrOf result StepRefused.Memory }
        ensures err { OnErr result (self.new ≡ self.old) }
    {
        self.bare.insert_step(&self.class, seat)
    }

    /// Deletes the row. True exactly where it is live; else nothing changes. For a row that is not live
    /// no memory is wanted.
    pub fn kill(&mut self, seat: SeatNo, row: Row) -> Result<bool, Memory>
        requires free { stage_at self.old seat ≡ free }
        ensures ok { IfOk result (λ killed. KillsRow self.old self.new seat row killed) }
        ensures call { IfOk result (λ killed. IsCall O.meaning self.old self.new seat (kill_of row killed)) }
        ensures live { OnErr result (is_live row (past_of self.old) ≡ true) }
        ensures err { OnErr result (self.new ≡ self.old) }
    {
        self.bare.kill(seat, row)
    }

    /// Opens a scan. It holds the roots that the query begins at.
    pub fn open_scan(&mut self, seat: SeatNo, query: Query<O>) -> Result<(), Memory>
        requires free { stage_at self.old seat ≡ free }
        ensures ok { OnOk result (OpensScan O.meaning self.old self.new seat query) }
        ensures call { OnOk result (IsCall O.meaning self.old self.new seat (opens_scan query)) }
        ensures err { OnErr result (self.new ≡ self.old) }
    {
        let start = self.class.start(self.bare.alloc)?;
        self.bare.open_scan(seat, query, start)
    }

    /// Reads a held item: what it leads to takes its place, and the live rows that the query asks for
    /// are taken. `Latched` exactly where another seat has latched the item's block, and the scan stays
    /// as it is; that wants no memory.
    pub fn scan_read(&mut self, seat: SeatNo, item: usize) -> Result<ReadOut, Memory>
        requires held { item < held_count (stage_at self.old seat) }
        ensures ok { IfOk result (λ out. ReadsItem O.meaning self.old self.new seat item out) }
        ensures call { IfOk result (λ out. IsCall O.meaning self.old self.new seat (reads item out)) }
        ensures latched { OnErr result (IsItemFree self.old seat item) }
        ensures err { OnErr result (self.new ≡ self.old) }
    {
        self.bare.scan_read(&self.class, seat, item)
    }

    /// Ends a scan that holds nothing, and gives its rows, ascending.
    pub fn close_scan(&mut self, seat: SeatNo) -> Result<Closed, Memory>
        requires read { IsRead (stage_at self.old seat) }
        ensures ok { IfOk result (λ closed. ClosesScan self.old self.new seat closed) }
        ensures call { IfOk result (λ closed. IsCall O.meaning self.old self.new seat (closes closed)) }
        ensures err { OnErr result (self.new ≡ self.old) }
    {
        self.bare.close_scan(seat)
    }

    /// Opens a vacuum. Its targets are the rows that are deleted by now and not swept. `Open` exactly
    /// where that seat has a vacuum open.
    pub fn open_vacuum(&mut self, seat: SeatNo) -> Result<(), VacuumRefused>
        requires free { stage_at self.old seat ≡ free }
        ensures ok { OnOk result (OpensVacuum self.old self.new seat) }
        ensures call { OnOk result (IsCall O.meaning self.old self.new seat opens_vacuum) }
        ensures open { (by : ℕ) → IsErrOf result (VacuumRefused.Open by) ↔ IsSweeping (stage_at self.old by) }
        ensures err { OnErr result (self.new ≡ self.old) }
    {
        self.bare.open_vacuum(seat)
    }

    /// The next section of a vacuum. `Pending` exactly where it handles the first place of its pending
    /// list that is not done; `Block` exactly where all of these are done, and it handles the next
    /// block; `Finished` exactly where there is no next block either, and the vacuum has ended then.
    /// `Latched` exactly where another seat has latched the block to be handled, and nothing changes;
    /// that wants no memory. The rows that it sweeps are told in the order of the offsets that they
    /// had. Redirects become placeholders whose stamps are below the opening stamp of the vacuum and of
    /// each open scan, so what began at such a stamp takes no harm.
    pub fn vacuum_step(&mut self, seat: SeatNo) -> Result<VacuumOut, Memory>
        requires sweeping { IsSweeping (stage_at self.old seat) }
        ensures ok { IfOk result (λ out. StepsVacuum self.old self.new seat out) }
        ensures call { IfOk result (λ out. WorksOn O.meaning self.old self.new seat out) }
        ensures changes { IfOk result (λ _. SweepsPages O.meaning self.old self.new seat) }
        ensures others { OthersHold self.old.table self.new.table seat }
        ensures within { ChangesHeld self.old.table self.new.table seat }
        ensures grows { Grows self.old.table self.new.table }
        ensures latched { OnErr result (IsWorkFree self.old seat) }
        ensures err { OnErr result (self.new ≡ self.old) }
    {
        self.bare.vacuum_step(seat)
    }

    /// Gives up what the seat has open: an insert with this cause, `Full` only where fewer than 4
    /// blocks are left below the limit, `Clock` only where the clock is 2^48 - 1. The seat has nothing
    /// latched then. It takes no memory.
    pub fn abandon(&mut self, seat: SeatNo, why: Why)
        requires open { stage_at self.old seat ≢ free }
        requires why { MayGiveUp self.old.table (stage_at self.old seat) why }
        ensures up { GivesUp self.old self.new seat why }
        ensures call { IsCall O.meaning self.old self.new seat (given (stage_at self.old seat) why) }
    {
        self.bare.abandon(seat, why)
    }
}
