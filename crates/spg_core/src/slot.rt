ghost use Rattle.std.specs.Prelude.{◌≡◌, ◌<◌, length, replicate, slice_set, slice_index_or, IfOk};
ghost use Rattle.spg_core.specs.declared.slot.Slot.TheVariants as kept;
ghost use Rattle.spg_core.specs.Stage.{kind_of, given_up};
ghost use Rattle.spg_core.specs.Since.{opened_at};
ghost use Rattle.spg_core.specs.Slot.{stage_of};
ghost use Rattle.spg_core.specs.Operations.{IsInsert, IsDescentOf};

use crate::answer::OpenKind;
use spg_base::{Memory, SeatNo, Stamp};
use spg_opclass::OpClass;
use spg_rows::{Event, Why};
use spg_scan::{Scan, Walk};
use spg_tree::Descent;
use spg_vacuum::Vacuum;
use std::alloc::Global;

/// How many seats there are.
pub const SEATS: usize = 64;

/// What a seat has open, and how far it has come.
#[derive(Drop)]
pub enum Slot<O: OpClass> {
    Free,
    Insert {
        key: Option<O::Key>,
        descent: Descent<O>,
    },
    Scan(Scan<O>),
    Vacuum(Vacuum),
}

/// A slot for each seat, with nothing open.
pub fn free_slots<O: OpClass>(alloc: Global) -> Result<Vec<Slot<O>>, Memory>
    ensures { IfOk result (λ slots. slots.items ≡ replicate 64 kept.Free) }
{
    let mut slots = Vec::with_capacity(alloc, SEATS)?;
    for _i in 0..SEATS {
        slots.push(Slot::Free)?;
    }
    Ok(slots)
}

/// The seat's slot.
pub fn slot_at<O: OpClass>(slots: &[Slot<O>], seat: SeatNo) -> &Slot<O>
    requires { length slots.now ≡ 64 }
    ensures { result.now ≡ slice_index_or slots.now seat kept.Free }
{
    &slots[usize::from(seat.number())]
}

/// The insert in the seat's slot, on its way.
pub fn descent_at<O: OpClass>(slots: &[Slot<O>], seat: SeatNo) -> &Descent<O>
    requires seats { length slots.now ≡ 64 }
    requires insert { IsInsert (slice_index_or slots.now seat kept.Free) }
    ensures { IsDescentOf (slice_index_or slots.now seat kept.Free) result.now }
{
    match slot_at(slots, seat) {
        Slot::Insert { descent, .. } => descent,
        _ => unreachable!(),
    }
}

/// Puts a slot in place of the seat's, which comes back.
pub fn set_slot<O: OpClass>(slots: &mut Vec<Slot<O>>, seat: SeatNo, slot: Slot<O>) -> Slot<O>
    requires { length slots.old.items ≡ 64 }
    ensures items { slots.new.items ≡ slice_set slots.old.items seat slot }
    ensures former { result ≡ slice_index_or slots.old.items seat kept.Free }
    ensures in_range { seat < 64 }
{
    std::mem::replace(&mut slots[usize::from(seat.number())], slot)
}

/// What the slot has open.
pub fn kind<O: OpClass>(slot: &Slot<O>) -> OpenKind
    ensures { result ≡ kind_of (stage_of slot.now) }
{
    match slot {
        Slot::Free => OpenKind::Nothing,
        Slot::Insert { .. } => OpenKind::Insert,
        Slot::Scan(scan) => OpenKind::Scan { held: scan.held() },
        Slot::Vacuum(_) => OpenKind::Vacuum,
    }
}

/// The position in the journal and the clock at which the scan or the vacuum of the slot opened. None
/// exactly where it has neither.
pub fn opened<O: OpClass>(slot: &Slot<O>) -> Option<(u64, Stamp)>
    ensures { result ≡ opened_at (stage_of slot.now) }
{
    match slot {
        Slot::Scan(scan) => Some((scan.at(), scan.stamp())),
        Slot::Vacuum(vacuum) => Some((vacuum.at(), vacuum.stamp())),
        _ => None,
    }
}

/// The event by which the seat gives up what its slot has open.
pub fn give_up<O: OpClass>(slot: &Slot<O>, seat: SeatNo, why: Why) -> Event<O>
    ensures { result ≡ given_up seat (stage_of slot.now) why }
{
    match slot {
        Slot::Insert { descent, .. } => Event::Drop {
            seat,
            row: descent.row(),
            why,
        },
        _ => Event::Leave { seat },
    }
}
