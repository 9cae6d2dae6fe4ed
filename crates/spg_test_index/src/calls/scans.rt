use spg_base::{Memory, SeatNo};
use spg_core::{Closed, OpenKind, ReadOut, State};
use spg_opclass::{OpClass, Query};

/// Opens a scan, where the seat has nothing open.
pub fn open_scan<O: OpClass>(
    state: &mut State<O>,
    seat: SeatNo,
    query: Query<O>,
) -> Option<Result<(), Memory>> {
    match state.open_of(seat) {
        OpenKind::Nothing => Some(state.open_scan(seat, query)),
        _ => None,
    }
}

/// Reads an item of the seat's scan, where it holds so many.
pub fn scan_read<O: OpClass>(
    state: &mut State<O>,
    seat: SeatNo,
    item: usize,
) -> Option<Result<ReadOut, Memory>> {
    match state.open_of(seat) {
        OpenKind::Scan { held } if item < held => Some(state.scan_read(seat, item)),
        _ => None,
    }
}

/// Ends the seat's scan, where it holds nothing.
pub fn close_scan<O: OpClass>(
    state: &mut State<O>,
    seat: SeatNo,
) -> Option<Result<Closed, Memory>> {
    match state.open_of(seat) {
        OpenKind::Scan { held: 0 } => Some(state.close_scan(seat)),
        _ => None,
    }
}
