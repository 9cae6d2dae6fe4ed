//! Who has a vacuum or an old scan open.
ghost use Rattle.std.specs.Prelude.{◌≡◌, length, map};
ghost use Rattle.spg_seats.specs.Slots.{stamp_of, horizon_of};
ghost use Rattle.spg_seats.specs.Waiting.{is_sweeping, reads_at, lowest_seat};
ghost use Rattle.spg_core.specs.Slot.{stage_of};

use crate::slot::{SEATS, Slot};
use spg_base::{SeatNo, Stamp};
use spg_opclass::OpClass;

/// Whether a vacuum is open in the slot.
fn is_vacuum<O: OpClass>(slot: &Slot<O>) -> bool
    ensures { result ≡ is_sweeping (stage_of slot.now) }
{
    matches!(slot, Slot::Vacuum(_))
}

/// Whether a scan is open in the slot that opened before a position of the journal.
fn is_scan_before<O: OpClass>(slot: &Slot<O>, at: u64) -> bool
    ensures { result ≡ reads_at at (stage_of slot.now) }
{
    match slot {
        Slot::Scan(scan) => scan.at() < at,
        _ => false,
    }
}

/// The seat that has a vacuum open. None where no seat has.
pub(crate) fn vacuum_seat<O: OpClass>(slots: &[Slot<O>]) -> Option<SeatNo>
    requires { length slots.now ≡ 64 }
    ensures { result ≡ lowest_seat is_sweeping 64 (map stage_of slots.now) }
{
    for number in 0..SEATS {
        if is_vacuum(&slots[number]) {
            return SeatNo::new(number as u8);
        }
    }
    None
}

/// The lowest seat whose scan opened before a position of the journal, and is open still. None where
/// there is no such scan.
pub(crate) fn scan_seat<O: OpClass>(slots: &[Slot<O>], at: u64) -> Option<SeatNo>
    requires { length slots.now ≡ 64 }
    ensures { result ≡ lowest_seat (reads_at at) 64 (map stage_of slots.now) }
{
    for number in 0..SEATS {
        if is_scan_before(&slots[number], at) {
            return SeatNo::new(number as u8);
        }
    }
    None
}

/// The clock's stamp at which the scan or the vacuum in a slot opened. None where it has neither.
fn open_stamp<O: OpClass>(slot: &Slot<O>) -> Option<Stamp>
    ensures { result ≡ stamp_of (stage_of slot.now) }
{
    match slot {
        Slot::Free | Slot::Insert { .. } => None,
        Slot::Scan(scan) => Some(scan.stamp()),
        Slot::Vacuum(vacuum) => Some(vacuum.stamp()),
    }
}

/// The least of a stamp and the opening stamps of all open scans and vacuums.
pub(crate) fn horizon<O: OpClass>(slots: &[Slot<O>], stamp: Stamp) -> Stamp
    ensures { result ≡ horizon_of (map stage_of slots.now) stamp }
{
    let mut least = stamp;
    for slot in slots {
        least = match open_stamp(slot) {
            Some(opened) if opened < least => opened,
            _ => least,
        };
    }
    least
}
