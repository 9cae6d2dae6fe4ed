use spg_base::{Memory, SeatNo};
use spg_core::{OpenKind, State, VacuumOut, VacuumRefused};
use spg_opclass::OpClass;
use spg_rows::Why;

/// Opens a vacuum, where the seat has nothing open.
pub fn open_vacuum<O: OpClass>(
    state: &mut State<O>,
    seat: SeatNo,
) -> Option<Result<(), VacuumRefused>> {
    match state.open_of(seat) {
        OpenKind::Nothing => Some(state.open_vacuum(seat)),
        _ => None,
    }
}

/// The next section of the seat's vacuum.
pub fn vacuum_step<O: OpClass>(
    state: &mut State<O>,
    seat: SeatNo,
) -> Option<Result<VacuumOut, Memory>> {
    match state.open_of(seat) {
        OpenKind::Vacuum => Some(state.vacuum_step(seat)),
        _ => None,
    }
}

/// Gives up what the seat has open. False where that is nothing.
pub fn give_up<O: OpClass>(state: &mut State<O>, seat: SeatNo) -> bool {
    match state.open_of(seat) {
        OpenKind::Nothing => false,
        _ => {
            state.abandon(seat, Why::Given);
            true
        }
    }
}
