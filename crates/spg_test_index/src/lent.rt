//! Calls of an index without its class, each done where the seat has open what it asks for; None where not.

use spg_base::{Memory, Row, SeatNo};
use spg_core::{
    ApplyRefused, Bare, Closed, InsertOut, Look, OpenKind, OpenRefused, ScanCopy, SiftRefused,
    StepRefused,
};
use spg_opclass::{Chosen, OpClass, Parted, Sifted, Started};
use spg_rows::Why;

pub(crate) fn open_insert<O: OpClass>(
    bare: &mut Bare<O>,
    seat: SeatNo,
    row: Row,
    started: Started<O>,
) -> Option<Result<(), OpenRefused>> {
    match bare.open_of(seat) {
        OpenKind::Nothing => Some(bare.open_insert(seat, row, started)),
        _ => None,
    }
}

pub(crate) fn insert_look<O: OpClass>(
    bare: &mut Bare<O>,
    seat: SeatNo,
) -> Option<Result<Look<O>, StepRefused>> {
    match bare.open_of(seat) {
        OpenKind::Insert => Some(bare.insert_look(seat)),
        _ => None,
    }
}

pub(crate) fn insert_choose<O: OpClass>(
    bare: &mut Bare<O>,
    seat: SeatNo,
    chosen: &Chosen<O>,
) -> Option<Result<InsertOut, ApplyRefused>> {
    match bare.open_of(seat) {
        OpenKind::Insert => Some(bare.insert_choose(seat, chosen)),
        _ => None,
    }
}

pub(crate) fn insert_part<O: OpClass>(
    bare: &mut Bare<O>,
    seat: SeatNo,
    parted: &Parted<O>,
) -> Option<Result<InsertOut, ApplyRefused>> {
    match bare.open_of(seat) {
        OpenKind::Insert => Some(bare.insert_part(seat, parted)),
        _ => None,
    }
}

/// Gives up the seat's insert.
pub(crate) fn give_up<O: OpClass>(bare: &mut Bare<O>, seat: SeatNo) {
    if let OpenKind::Insert = bare.open_of(seat) {
        bare.abandon(seat, Why::Given);
    }
}

pub(crate) fn scan_copy<O: OpClass>(
    bare: &mut Bare<O>,
    seat: SeatNo,
) -> Option<Result<ScanCopy<O>, Memory>> {
    match bare.open_of(seat) {
        OpenKind::Scan { held } if held > 0 => Some(bare.scan_copy(seat, 0)),
        _ => None,
    }
}

pub(crate) fn scan_sifted<O: OpClass>(
    bare: &mut Bare<O>,
    seat: SeatNo,
    sifted: &Sifted<O>,
) -> Option<Result<(), SiftRefused>> {
    match bare.open_of(seat) {
        OpenKind::Scan { .. } => Some(bare.scan_sifted(seat, 0, sifted)),
        _ => None,
    }
}

pub(crate) fn close_scan<O: OpClass>(
    bare: &mut Bare<O>,
    seat: SeatNo,
) -> Option<Result<Closed, Memory>> {
    match bare.open_of(seat) {
        OpenKind::Scan { held: 0 } => Some(bare.close_scan(seat)),
        _ => None,
    }
}
