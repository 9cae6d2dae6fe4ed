ghost use Rattle.std.specs.Prelude.{◌≡◌, true, ◌⊎◌, ◌<◌, ◌+◌, ◌^◌, [], ℕ, Option, length, slice_set, slice_index_or, IfOk, OnErr, IsErrOf, IfSome, ◌≤◌, vec_capacity};
ghost use Rattle.spg_forest.specs.Shape.{Shape};
ghost use Rattle.spg_rows.specs.Table.{state_in};
ghost use Rattle.spg_rows.specs.declared.table.RowState.TheVariants as row_state;
ghost use Rattle.spg_tree.specs.Table.{sheets_of};
ghost use Rattle.spg_tree.specs.declared.stand.StepRefused.TheVariants.{IndexFull, ClockFull, Memory as NoMemory};
ghost use Rattle.spg_core.specs.declared.slot.Slot.TheVariants as kept;
ghost use Rattle.spg_seats.specs.Slots.{stage_holds};
ghost use Rattle.spg_seats.specs.Latching.{AreHeld, HoldsNone};
ghost use Rattle.spg_core.specs.Telling.{IsButLatches};
ghost use Rattle.spg_core.specs.Slot.{GivesBack, ended_with, stage_of};
ghost use Rattle.spg_core.specs.Operations.{CanStep, StepsSlot, IsOutgrownBy, CanRead, ReadsSlot, CanClose, ClosesSlot, CanRelease, IsInsert, IsRowOf};
ghost use Rattle.spg_core.specs.Stepping.{IsNearLimit};
ghost use Rattle.spg_core.specs.Sections.{FindsNoPageFor, TicksFor};
ghost use Rattle.spg_core.specs.Guides.{GuidedIn};
ghost use Rattle.spg_core.specs.Blocked.{ItemFreeIn};
ghost use Rattle.spg_scan.specs.Scanning.{IsClosing, emptied};
ghost use Rattle.spg_scan.specs.Parts.{EntriesLive};

use crate::answer::InsertOut;
use crate::guide::Guide;
use crate::insert::step;
use crate::slot::Slot;
use crate::vacuums::Vacuums;
use spg_base::{List, Memory, Row, Rows, SeatNo};
use spg_descend::release_latches;
use spg_opclass::OpClass;
use spg_rows::RowTable;
use spg_scan::{Closed, Liveness, ReadOut, Scan, Walk};
use spg_tree::{PageTable, StepRefused};
use std::alloc::Global;

/// The next section of the insert in the seat's slot, as its guide decides.
#[inline(always)]
pub(crate) fn step_slot<O: OpClass>(
    alloc: Global,
    table: &mut PageTable,
    slots: &mut Vec<Slot<O>>,
    seat: SeatNo,
    guide: Guide<'_, O>,
) -> Result<InsertOut, StepRefused>
    requires seats { length slots.old.items ≡ 64 }
    requires shape { Shape O.meaning (sheets_of table.old) }
    requires insert { CanStep O.meaning table.old (slice_index_or slots.old.items seat kept.Free) }
    requires guided { GuidedIn O.meaning table.old (stage_of (slice_index_or slots.old.items seat kept.Free)) guide }
    ensures ok { IfOk result (λ out. StepsSlot O.meaning table.old table.new slots.old.items slots.new.items seat out) }
    ensures full { IsErrOf result IndexFull → IsOutgrownBy table.old (slice_index_or slots.old.items seat kept.Free) × IsNearLimit table.old }
    ensures clock { IsErrOf result ClockFull → IsOutgrownBy table.old (slice_index_or slots.old.items seat kept.Free) × (table.old.clock + 1 ≡ 2 ^ 48) }
    ensures full_where { IsErrOf result IndexFull → FindsNoPageFor O.meaning table.old seat (stage_of (slice_index_or slots.old.items seat kept.Free)) }
    ensures clock_where { IsErrOf result ClockFull → TicksFor O.meaning table.old (stage_of (slice_index_or slots.old.items seat kept.Free)) }
    ensures clock_first { TicksFor O.meaning table.old (stage_of (slice_index_or slots.old.items seat kept.Free)) → table.old.clock + 1 ≡ 2 ^ 48 → IsErrOf result ClockFull ⊎ IsErrOf result NoMemory }
    ensures no_page { FindsNoPageFor O.meaning table.old seat (stage_of (slice_index_or slots.old.items seat kept.Free)) → (TicksFor O.meaning table.old (stage_of (slice_index_or slots.old.items seat kept.Free)) → table.old.clock + 1 ≡ 2 ^ 48 → ⊥) → IsErrOf result IndexFull ⊎ IsErrOf result NoMemory }
    ensures err { OnErr result (table.new ≡ table.old) }
    ensures err_slots { OnErr result (slots.new.items ≡ slots.old.items) }
{
    match &mut slots[usize::from(seat.number())] {
        Slot::Insert { descent, .. } => step(alloc, table, descent, seat, guide),
        _ => unreachable!(),
    }
}

/// Ends the insert in the seat's slot, which is free then. Its row comes back.
pub(crate) fn end_insert<O: OpClass>(slots: &mut Vec<Slot<O>>, seat: SeatNo) -> Row
    requires seats { length slots.old.items ≡ 64 }
    requires insert { IsInsert (slice_index_or slots.old.items seat kept.Free) }
    ensures items { slots.new.items ≡ slice_set slots.old.items seat kept.Free }
    ensures row { IsRowOf (slice_index_or slots.old.items seat kept.Free) result }
{
    match std::mem::replace(&mut slots[usize::from(seat.number())], Slot::Free) {
        Slot::Insert { descent, .. } => descent.row(),
        _ => unreachable!(),
    }
}

/// Reads an item of the scan in the seat's slot.
pub(crate) fn read_slot<O: OpClass>(
    alloc: Global,
    class: &O,
    table: &PageTable,
    liveness: &Liveness<O>,
    slots: &mut Vec<Slot<O>>,
    seat: SeatNo,
    item: usize,
) -> Result<ReadOut, Memory>
    requires seats { length slots.old.items ≡ 64 }
    requires shape { Shape O.meaning (sheets_of table.now) }
    requires scan { CanRead O.meaning table.now (slice_index_or slots.old.items seat kept.Free) item }
    requires live { liveness.now.all_live ≡ true → EntriesLive O.meaning (sheets_of table.now) liveness.now.table.now }
    ensures ok { IfOk result (λ out. ReadsSlot O.meaning table.now liveness.now.table.now slots.old.items slots.new.items seat item out) }
    ensures latched { OnErr result (ItemFreeIn table.now (stage_of (slice_index_or slots.old.items seat kept.Free)) seat item) }
    ensures err { OnErr result (slots.new.items ≡ slots.old.items) }
{
    match &mut slots[usize::from(seat.number())] {
        Slot::Scan(scan) => scan.read_told(alloc, class, table, liveness, item, seat),
        _ => unreachable!(),
    }
}

/// A copy of rows, in memory that was taken before.
fn copied(mut told: Vec<Row>, rows: &[Row]) -> Rows
    requires empty { told.items ≡ [] }
    requires room { length rows.now ≤ vec_capacity told }
    ensures { result ≡ rows.now }
{
    for row in rows {
        told.push_reserved(*row);
    }
    List::from_vec(told)
}

/// Closes the scan in the seat's slot, which holds nothing. Its rows come twice.
fn close_twice<O: OpClass>(alloc: Global, scan: &mut Scan<O>) -> Result<(Rows, Closed), Memory>
    requires { scan.old.items ≡ [] }
    ensures ok { IfOk result (λ closed. IsClosing scan.old closed.1) }
    ensures after { IfOk result (λ _. scan.new ≡ emptied scan.old) }
    ensures told { IfOk result (λ closed. closed.0 ≡ closed.1.rows) }
    ensures err { OnErr result (scan.new ≡ scan.old) }
{
    let told = Vec::with_capacity(alloc, scan.found())?;
    let closed = scan.close()?;
    Ok((copied(told, closed.rows.as_slice()), closed))
}

/// Closes the scan in the seat's slot, which holds nothing. Its rows come twice.
pub(crate) fn close_slot<O: OpClass>(
    alloc: Global,
    slots: &mut Vec<Slot<O>>,
    seat: SeatNo,
) -> Result<(Rows, Closed), Memory>
    requires seats { length slots.old.items ≡ 64 }
    requires scan { CanClose (slice_index_or slots.old.items seat kept.Free) }
    ensures ok { IfOk result (λ closed. ClosesSlot slots.old.items slots.new.items seat closed.1) }
    ensures told { IfOk result (λ closed. closed.0 ≡ closed.1.rows) }
    ensures err { OnErr result (slots.new.items ≡ slots.old.items) }
{
    match &mut slots[usize::from(seat.number())] {
        Slot::Scan(scan) => close_twice(alloc, scan),
        _ => unreachable!(),
    }
}

/// Gives free what the operation of a slot holds: the latches and the row of an insert.
pub(crate) fn release_slot<O: OpClass>(
    table: &mut PageTable,
    rows: &mut RowTable<O>,
    slot: &Slot<O>,
    seat: SeatNo,
)
    requires { CanRelease table.old rows.old slot.now }
    ensures pages { IsButLatches table.old table.new }
    ensures latches { (rest : ℕ → Option ℕ) → AreHeld table.old seat rest (stage_holds (stage_of slot.now)) → HoldsNone table.new seat rest }
    ensures rows { GivesBack slot.now rows.old rows.new }
{
    if let Slot::Insert { descent, .. } = slot {
        release_latches(table, descent, seat);
        rows.drop_claim(descent.row());
    }
}

/// The vacuum of a slot, where it has one, ends at a position of the journal.
pub(crate) fn end_vacuum<O: OpClass>(vacuums: &mut Vacuums, slot: &Slot<O>, at: u64)
    ensures { vacuums.new ≡ ended_with slot.now at vacuums.old }
{
    if let Slot::Vacuum(_) = slot {
        vacuums.end(at);
    }
}
