//! The sections of a vacuum, and how they are told.
ghost use Rattle.std.specs.Prelude.{Bool, ◌≡◌, ◌≤◌, ◌+◌, ◌++◌, IsTrue, length, slice_index_or, Contains, IfOk, OnErr};
ghost use Rattle.std.specs.BTreeSet.{contains, IsEmpty};
ghost use Rattle.spg_base.specs.Row.{RowAt, row_cmp};
ghost use Rattle.spg_forest.specs.Shape.{Shape};
ghost use Rattle.spg_cover.specs.Vacuum.{Of};
ghost use Rattle.spg_rows.specs.Count.{IsOnce};
ghost use Rattle.spg_rows.specs.Table.{IsKilledIn, SameKeys};
ghost use Rattle.spg_seats.specs.Opening.{sweeps};
ghost use Rattle.spg_tree.specs.Table.{sheets_of};
ghost use Rattle.spg_vacuum.specs.Vacuums.{IsVacuum};
ghost use Rattle.spg_core.specs.declared.slot.Slot.TheVariants as kept;
ghost use Rattle.spg_core.specs.Slot.{stage_of};
ghost use Rattle.spg_core.specs.Blocked.{WorkHeldIn};
ghost use Rattle.spg_core.specs.Sweeping.{DoesWork, KeepsWork, IsVacuumSlot, IsHorizonFor, CanSweep, SweepsSlot, SetsSwept, LeaveSet};

use crate::answer::VacuumOut;
use crate::slot::{Slot, slot_at};
use crate::waiting::horizon;
use spg_base::{Block, List, Memory, Row, RowSet, Rows, SeatNo, Stamp};
use spg_opclass::OpClass;
use spg_rows::{Event, Journal, RowTable};
use spg_tree::{PageTable, Touched};
use spg_vacuum::{Done, Vacuum, Work};
use std::alloc::Global;

/// Whether neither set has a row.
pub(crate) fn are_empty(targets: &RowSet, later: &RowSet) -> bool
    ensures { IsTrue result → IsEmpty targets.now.rows × IsEmpty later.now.rows }
{
    targets.is_empty() && later.is_empty()
}

/// What a section of a vacuum did, the rows that it swept, and where the vacuum opened in the journal.
#[derive(Drop)]
pub(crate) struct Stepped {
    pub(crate) out: VacuumOut,
    pub(crate) rows: Rows,
    pub(crate) opened: u64,
}

/// The next section of a vacuum, and the rows that it swept.
fn step_vacuum<O: OpClass>(
    alloc: Global,
    table: &mut PageTable,
    vacuum: &mut Vacuum,
    targets: &RowSet,
    horizon: Stamp,
    seat: SeatNo,
) -> Result<(VacuumOut, Rows), Memory>
    requires shape { Shape O.meaning (sheets_of table.old) }
    requires vacuum { IsVacuum O.meaning table.old vacuum.old (Of (contains row_cmp targets.now.rows)) }
    requires horizon { horizon ≤ vacuum.old.stamp }
    ensures ok { IfOk result (λ stepped. DoesWork table.old table.new vacuum.old vacuum.new (contains row_cmp targets.now.rows) horizon seat stepped.0 stepped.1) }
    ensures keeps { IfOk result (λ stepped. KeepsWork O.meaning table.old table.new vacuum.old vacuum.new (contains row_cmp targets.now.rows) horizon stepped.0 stepped.1) }
    ensures few { IfOk result (λ stepped. length stepped.1 ≤ 408) }
    ensures err { OnErr result (table.new ≡ table.old) }
    ensures err_vacuum { OnErr result (vacuum.new ≡ vacuum.old) }
{
    let (out, done) = match vacuum.work(table) {
        Work::Block => (
            VacuumOut::Block,
            vacuum.block_section::<O>(alloc, table, targets, horizon, seat)?,
        ),
        Work::Pending => (
            VacuumOut::Pending,
            vacuum.pending_section::<O>(alloc, table, targets, horizon, seat)?,
        ),
        Work::Finish => {
            let swept = vacuum.finish::<O>(table);
            table.set_touched(Touched::new());
            return Ok((VacuumOut::Finished { swept }, List::new(alloc)));
        }
    };
    match done {
        Done::Swept(rows) => Ok((out, rows)),
        Done::Latched { block, by } => Ok((VacuumOut::Latched { block, by }, List::new(alloc))),
    }
}

/// The least opening stamp of the seat's vacuum and of all open scans.
fn horizon_for<O: OpClass>(slots: &[Slot<O>], seat: SeatNo) -> Stamp
    requires seats { length slots.now ≡ 64 }
    requires vacuum { IsVacuumSlot (slice_index_or slots.now seat kept.Free) }
    ensures { IsHorizonFor slots.now (slice_index_or slots.now seat kept.Free) result }
{
    match slot_at(slots, seat) {
        Slot::Vacuum(vacuum) => horizon(slots, vacuum.stamp()),
        _ => unreachable!(),
    }
}

/// The block that the vacuum in the seat's slot handles next and the other seat that has latched it.
/// None exactly where no other seat has, or the vacuum is at its end.
pub(crate) fn held_slot<O: OpClass>(
    table: &PageTable,
    slots: &[Slot<O>],
    seat: SeatNo,
) -> Option<(Block, SeatNo)>
    requires seats { length slots.now ≡ 64 }
    requires shape { Shape O.meaning (sheets_of table.now) }
    requires vacuum { (test : RowAt → Bool) × CanSweep O.meaning table.now test (slice_index_or slots.now seat kept.Free) }
    ensures { WorkHeldIn table.now (stage_of (slice_index_or slots.now seat kept.Free)) seat result }
{
    match slot_at(slots, seat) {
        Slot::Vacuum(vacuum) => vacuum.held_next::<O>(table, seat),
        _ => unreachable!(),
    }
}

/// The next section of the vacuum in the seat's slot.
pub(crate) fn sweep_slot<O: OpClass>(
    alloc: Global,
    table: &mut PageTable,
    slots: &mut Vec<Slot<O>>,
    targets: &RowSet,
    seat: SeatNo,
) -> Result<Stepped, Memory>
    requires seats { length slots.old.items ≡ 64 }
    requires shape { Shape O.meaning (sheets_of table.old) }
    requires vacuum { CanSweep O.meaning table.old (contains row_cmp targets.now.rows) (slice_index_or slots.old.items seat kept.Free) }
    ensures ok { IfOk result (λ stepped. SweepsSlot O.meaning table.old table.new slots.old.items slots.new.items (contains row_cmp targets.now.rows) seat stepped) }
    ensures few { IfOk result (λ stepped. length stepped.rows ≤ 408) }
    ensures err { OnErr result (table.new ≡ table.old) }
    ensures err_slots { OnErr result (slots.new.items ≡ slots.old.items) }
{
    let horizon = horizon_for(slots.as_slice(), seat);
    match &mut slots[usize::from(seat.number())] {
        Slot::Vacuum(vacuum) => {
            let opened = vacuum.at();
            let (out, rows) = step_vacuum::<O>(alloc, table, vacuum, targets, horizon, seat)?;
            Ok(Stepped { out, rows, opened })
        }
        _ => unreachable!(),
    }
}

/// Tells that these rows were swept by the vacuum that opened at a position, each once. They are
/// targets no more. It takes no memory.
pub(crate) fn tell_sweeps<O: OpClass>(
    journal: &mut Journal<O>,
    rows: &mut RowTable<O>,
    targets: &mut RowSet,
    seat: SeatNo,
    vacuum: u64,
    swept: &[Row],
)
    requires room { length swept.now ≤ journal.old.spare }
    requires once { IsOnce swept.now }
    requires killed { (row : RowAt) → Contains swept.now row → IsKilledIn rows.old row }
    ensures events { journal.new.events ≡ journal.old.events ++ sweeps seat swept.now }
    ensures spare { journal.new.spare + length swept.now ≡ journal.old.spare }
    ensures states { SetsSwept rows.old rows.new vacuum swept.now }
    ensures keys { SameKeys rows.old rows.new }
    ensures targets { LeaveSet (contains row_cmp targets.old.rows) (contains row_cmp targets.new.rows) swept.now }
{
    for row in swept {
        rows.sweep(*row, vacuum);
        targets.remove(*row);
        journal.append(Event::Sweep { seat, row: *row });
    }
}
