ghost use Rattle.spg_core.specs.Stage.{IsInserting};
ghost use Rattle.spg_core.specs.Seen.{stage_at};

use spg_base::{Memory, Row, SeatNo};
use spg_core::{InsertOut, InsertRan, OpenKind, OpenRefused, State, StepRefused};
use spg_opclass::OpClass;
use spg_rows::Why;

/// Opens an insert, where the seat has nothing open.
pub fn open_insert<O: OpClass>(
    state: &mut State<O>,
    seat: SeatNo,
    row: Row,
    key: Option<O::Key>,
) -> Option<Result<(), OpenRefused>> {
    match state.open_of(seat) {
        OpenKind::Nothing => Some(state.open_insert(seat, row, key)),
        _ => None,
    }
}

/// The next section of the seat's insert.
pub fn insert_step<O: OpClass>(
    state: &mut State<O>,
    seat: SeatNo,
) -> Option<Result<InsertOut, StepRefused>> {
    match state.open_of(seat) {
        OpenKind::Insert => Some(state.insert_step(seat)),
        _ => None,
    }
}

/// The sections of the seat's insert, to its end or to a block that another seat has latched.
pub fn insert_through<O: OpClass>(
    state: &mut State<O>,
    seat: SeatNo,
) -> Option<Result<InsertRan, StepRefused>> {
    match state.open_of(seat) {
        OpenKind::Insert => Some(state.insert_through(seat)),
        _ => None,
    }
}

/// The next section of an insert, which is given up where it is refused.
fn step<O: OpClass>(state: &mut State<O>, seat: SeatNo) -> Result<InsertOut, StepRefused>
    requires { IsInserting (stage_at state.old seat) }
{
    match state.insert_step(seat) {
        Ok(out) => Ok(out),
        Err(StepRefused::IndexFull) => {
            state.abandon(seat, Why::Full);
            Err(StepRefused::IndexFull)
        }
        Err(refused) => {
            state.abandon(seat, Why::Given);
            Err(refused)
        }
    }
}

/// The next section of the seat's insert, which is given up where it is refused, as full where the index
/// is.
pub fn insert_or_give_up<O: OpClass>(
    state: &mut State<O>,
    seat: SeatNo,
) -> Option<Result<InsertOut, StepRefused>> {
    match state.open_of(seat) {
        OpenKind::Insert => Some(step(state, seat)),
        _ => None,
    }
}

/// Inserts a row. False where it is not put: the seat has something open, the row is used or held, or
/// another seat has latched a block on the way.
pub fn insert<O: OpClass>(
    state: &mut State<O>,
    seat: SeatNo,
    row: Row,
    key: Option<O::Key>,
) -> Result<bool, Memory> {
    match open_insert(state, seat, row, key) {
        Some(Ok(())) => {}
        Some(Err(OpenRefused::Memory)) => return Err(Memory),
        _ => return Ok(false),
    }
    match insert_through(state, seat) {
        Some(Ok(ran)) => Ok(ran == InsertRan::Put),
        _ => Err(Memory),
    }
}

/// Deletes a row, where the seat has nothing open.
pub fn kill<O: OpClass>(
    state: &mut State<O>,
    seat: SeatNo,
    row: Row,
) -> Option<Result<bool, Memory>> {
    match state.open_of(seat) {
        OpenKind::Nothing => Some(state.kill(seat, row)),
        _ => None,
    }
}
