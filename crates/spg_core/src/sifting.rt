// A scan in a seat's slot copies an item for its class, and goes on by what the class answered.
ghost use Rattle.std.specs.Prelude.{◌≡◌, ◌↔◌, length, slice_index_or, IfOk, OnOk, OnErr, IsErrOf};
ghost use Rattle.spg_forest.specs.Shape.{Shape};
ghost use Rattle.spg_tree.specs.Table.{sheets_of};
ghost use Rattle.spg_core.specs.declared.slot.Slot.TheVariants as kept;
ghost use Rattle.spg_core.specs.Looking.{KeptIn};
ghost use Rattle.spg_core.specs.Blocked.{ItemFreeIn};
ghost use Rattle.spg_core.specs.Operations.{CanRead};
ghost use Rattle.spg_core.specs.Sifting.{CopiesSlot, SiftsSlot};
ghost use Rattle.spg_core.specs.Slot.{stage_of};
ghost use Rattle.spg_core.specs.Stage.{IsReading};

use crate::slot::Slot;
use spg_base::{Memory, SeatNo};
use spg_opclass::{OpClass, Sifted};
use spg_rows::RowTable;
use spg_scan::{ScanCopy, SiftRefused};
use spg_tree::PageTable;

/// Copies or reads an item of the scan in the seat's slot.
pub(crate) fn copy_slot<O: OpClass>(
    table: &PageTable,
    rows: &RowTable<O>,
    slots: &mut Vec<Slot<O>>,
    seat: SeatNo,
    item: usize,
) -> Result<ScanCopy<O>, Memory>
    requires seats { length slots.old.items ≡ 64 }
    requires shape { Shape O.meaning (sheets_of table.now) }
    requires scan { CanRead O.meaning table.now (slice_index_or slots.old.items seat kept.Free) item }
    ensures ok { IfOk result (λ out. CopiesSlot O.meaning table.now rows.now slots.old.items slots.new.items seat item out) }
    ensures latched { OnErr result (ItemFreeIn table.now (stage_of (slice_index_or slots.old.items seat kept.Free)) seat item) }
    ensures err { OnErr result (slots.new.items ≡ slots.old.items) }
{
    match &mut slots[usize::from(seat.number())] {
        Slot::Scan(scan) => scan.copy_item(table, rows, item, seat),
        _ => unreachable!(),
    }
}

/// Takes the answer for the copy of an item into the scan in the seat's slot.
pub(crate) fn sift_slot<O: OpClass>(
    slots: &mut Vec<Slot<O>>,
    seat: SeatNo,
    item: usize,
    sifted: &Sifted<O>,
) -> Result<(), SiftRefused>
    requires seats { length slots.old.items ≡ 64 }
    requires scan { IsReading (stage_of (slice_index_or slots.old.items seat kept.Free)) }
    ensures ok { OnOk result (SiftsSlot O.meaning slots.old.items slots.new.items seat item sifted.now) }
    ensures changed { IsErrOf result SiftRefused.Changed ↔ (KeptIn (stage_of (slice_index_or slots.old.items seat kept.Free)) item sifted.now → ⊥) }
    ensures err { OnErr result (slots.new.items ≡ slots.old.items) }
{
    match &mut slots[usize::from(seat.number())] {
        Slot::Scan(scan) => scan.take_sifted(item, sifted),
        _ => unreachable!(),
    }
}
