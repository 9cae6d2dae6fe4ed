ghost use Rattle.std.specs.Prelude.{false, ◌≡◌, ◌≢◌, ◌<◌, ◌≤◌, ◌+◌, ◌^◌, ℕ, Option, Some, None, IfOk};
ghost use Rattle.spg_base.specs.declared.recorded.Origin.{Origin};
ghost use Rattle.spg_forest.specs.Shape.{Shape, Represents};
ghost use Rattle.spg_verdict.specs.Entries.{AreEntries};
ghost use Rattle.spg_core.specs.Loading.{IsLoaded};
ghost use Rattle.spg_base.specs.Row.{RowAt};
ghost use Rattle.spg_rows.specs.Table.{state_in, key_in};
ghost use Rattle.spg_rows.specs.Rows.{state_of, held_by};
ghost use Rattle.spg_rows.specs.Right.{Right};
ghost use Rattle.spg_rows.specs.History.{open_of};
ghost use Rattle.spg_tree.specs.Table.{sheets_of, latch_at};
ghost use Rattle.spg_seats.specs.Slots.{StageFits, LatchesAre, kept_key};
ghost use Rattle.spg_bounds.specs.Bounds.{AreBounded, DropsAreLate};
ghost use Rattle.spg_seats.specs.Drops.{HaveCauses};
ghost use Rattle.spg_core.specs.Stage.{free, IsStageOf, MayGiveUp, kind_of};
ghost use Rattle.spg_core.specs.Since.{opened_at};
ghost use Rattle.spg_core.specs.Seen.{stage_at, past_of, IsPresentWith};
ghost use Rattle.spg_core.specs.Kept.{RootsAreHeavy};
ghost use Rattle.spg_core.specs.Counts.{IsStat};
ghost use Rattle.spg_core.specs.Sections.{IsNew, GivesUp};
ghost use Rattle.spg_core.specs.Calls.{IsCall, IsWhole, given};

use crate::answer::OpenKind;
use crate::loading::load_entries;
use crate::operations::{end_vacuum, release_slot};
use crate::slot::{SEATS, Slot, free_slots, give_up, kind, opened, set_slot, slot_at};
use crate::stat::stat_of;
use crate::vacuums::Vacuums;
use crate::waiting::{scan_seat, vacuum_seat};
use spg_base::{Memory, Origin, Row, RowSet, SeatNo, Stamp, Stat};
use spg_keys::Listed;
use spg_opclass::OpClass;
use spg_rows::{Journal, RowState, RowTable, Why};
use spg_tree::{PageTable, Touched};
use std::alloc::Global;
use std::marker::Model;

/// An open needs room for its own event and for the events that end what all seats have open.
pub(crate) const ROOM: u64 = SEATS as u64 + 1;

/// All that a `Bare` index keeps. Its calls are those of `Bare`.
#[derive(Drop)]
pub(crate) struct Kept<O: OpClass> {
    pub(crate) alloc: Global,
    pub(crate) table: PageTable,
    pub(crate) rows: RowTable<O>,
    pub(crate) slots: Vec<Slot<O>>,
    pub(crate) journal: Journal<O>,
    pub(crate) vacuums: Vacuums,
    /// The deleted rows that are not swept: those deleted before the newest vacuum opened,
    pub(crate) targets: RowSet,
    /// and those deleted since.
    pub(crate) later: RowSet,
    origin: Origin,
}

impl<O: OpClass> Model for Kept<O> {
    ghost use Rattle.spg_core.specs.Seen.{Seen};
    ghost use Rattle.spg_core.specs.Kept.{seen_of, fields_of, IsState};
    ghost use Rattle.spg_bounds.specs.Bounds.{IsBounded};

    ghost Value = { Seen O O.Key O.Recon O.Cond };

    ghost view = { seen_of };

    ghost invariant = { λ s. IsState O.meaning s × IsBounded O.meaning (fields_of s) };
}

impl<O: OpClass> Kept<O> {
    pub(crate) fn new(alloc: Global, limit: u32) -> Result<Kept<O>, Memory>
        requires from { 4 ≤ limit }
        requires to { limit ≤ 131072 }
        ensures { IfOk result (λ state. IsNew limit state) }
    {
        Ok(Kept {
            alloc,
            table: PageTable::new(alloc, limit)?,
            rows: RowTable::new(alloc),
            slots: free_slots(alloc)?,
            journal: Journal::new(alloc),
            vacuums: Vacuums::new(alloc),
            targets: RowSet::new(alloc),
            later: RowSet::new(alloc),
            origin: Origin {
                limit,
                pages: 3,
                clock: 0,
                loaded: false,
            },
        })
    }

    pub(crate) fn adopt(
        alloc: Global,
        table: PageTable,
        listed: &[Listed<O::Key>],
    ) -> Result<Kept<O>, Memory>
        requires shape { Shape O.meaning (sheets_of table) }
        requires entries { AreEntries O.meaning (sheets_of table) listed.now }
        requires latches { (b : ℕ) → latch_at table b ≡ None }
        ensures { IfOk result (λ state. IsLoaded table listed.now state) }
    {
        let (rows, journal) = load_entries(alloc, listed)?;
        let origin = Origin {
            limit: table.limit(),
            pages: table.page_count(),
            clock: table.clock(),
            loaded: true,
        };
        Ok(Kept {
            alloc,
            table,
            rows,
            slots: free_slots(alloc)?,
            journal,
            vacuums: Vacuums::new(alloc),
            targets: RowSet::new(alloc),
            later: RowSet::new(alloc),
            origin,
        })
    }

    pub(crate) fn origin(&self) -> Origin
        ensures value { result ≡ self.now.origin }
        ensures limit { self.now.table.limit ≡ result.limit }
    {
        self.origin
    }

    pub(crate) fn journal(&self) -> &Journal<O>
        ensures events { result.now.events ≡ self.now.journal }
        ensures right { Right O.meaning self.now.journal }
        ensures whole { IsWhole O.meaning self.now }
    {
        &self.journal
    }

    pub(crate) fn rows(&self) -> &RowTable<O>
        ensures states { (row : RowAt) → state_in result.now row ≡ state_of row (past_of self.now) }
        ensures keys { (row : RowAt) → key_in result.now row ≡ kept_key row (past_of self.now) }
    {
        &self.rows
    }

    pub(crate) fn pages(&self) -> &PageTable
        ensures value { result.now ≡ self.now.table }
        ensures represents { Represents O.meaning (sheets_of self.now.table) (IsPresentWith (past_of self.now)) }
        ensures heavy { self.now.origin.loaded ≡ false → RootsAreHeavy O.meaning self.now.table (past_of self.now) }
        ensures latches { LatchesAre self.now.table self.now.stages }
        ensures drops { HaveCauses (past_of self.now) self.now.table }
        ensures bounds { AreBounded self.now.origin self.now.table (past_of self.now) }
        ensures late { DropsAreLate self.now.origin (past_of self.now) }
    {
        &self.table
    }

    pub(crate) fn clock(&self) -> u64
        ensures value { result ≡ self.now.table.clock }
        ensures in_range { self.now.table.clock < 2 ^ 48 }
    {
        self.table.clock()
    }

    pub(crate) fn touched(&self) -> &Touched
        ensures { result.now ≡ self.now.table.touched }
    {
        self.table.touched()
    }

    pub(crate) fn stat(&self) -> Stat
        ensures { IsStat self.now.table result }
    {
        stat_of(&self.table)
    }

    pub(crate) fn open_of(&self, seat: SeatNo) -> OpenKind
        ensures kind { result ≡ kind_of (stage_at self.now seat) }
        ensures journal { IsStageOf (open_of seat (past_of self.now)) (stage_at self.now seat) }
        ensures fits { StageFits O.meaning self.now.table (past_of self.now) seat (stage_at self.now seat) }
    {
        kind(slot_at(&self.slots, seat))
    }

    pub(crate) fn opened(&self, seat: SeatNo) -> Option<(u64, Stamp)>
        ensures { result ≡ opened_at (stage_at self.now seat) }
    {
        opened(slot_at(&self.slots, seat))
    }

    pub(crate) fn held_by(&self, row: Row) -> Option<SeatNo>
        ensures { result ≡ held_by row (past_of self.now) }
    {
        let RowState::Swept { vacuum } = self.rows.state(row) else {
            return None;
        };
        match self.vacuums.end_of(vacuum) {
            None => vacuum_seat(&self.slots),
            Some(at) => scan_seat(&self.slots, at),
        }
    }

    pub(crate) fn abandon(&mut self, seat: SeatNo, why: Why)
        requires open { stage_at self.old seat ≢ free }
        requires why { MayGiveUp self.old.table (stage_at self.old seat) why }
        ensures up { GivesUp self.old self.new seat why }
        ensures call { IsCall O.meaning self.old self.new seat (given (stage_at self.old seat) why) }
    {
        let slot = set_slot(&mut self.slots, seat, Slot::Free);
        release_slot(&mut self.table, &mut self.rows, &slot, seat);
        end_vacuum(&mut self.vacuums, &slot, self.journal.len());
        self.journal.append(give_up(&slot, seat, why));
        self.table.set_touched(Touched::new());
    }
}
