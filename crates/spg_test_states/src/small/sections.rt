//! Sections of inserts, and the copy of a scan, which leave what other seats have open.
ghost use Rattle.std.specs.Prelude.{IsTrue};
ghost use Rattle.spg_core.specs.Seen.{stage_at};
ghost use Rattle.spg_test_states.specs.States.{OthersStay, HasCopy};

use spg_base::{Row, SeatNo};
use spg_core::{Bare, InsertOut, OpenKind, ScanCopy, State};
use spg_opclass::{Copied, OpClass};

/// Whether an insert opens.
pub(crate) fn opens_insert<O: OpClass>(
    state: &mut State<O>,
    seat: SeatNo,
    row: Row,
    key: Option<O::Key>,
) -> bool
    ensures { OthersStay state.old state.new seat }
{
    match state.open_of(seat) {
        OpenKind::Nothing => match state.open_insert(seat, row, key) {
            Ok(()) => true,
            Err(_) => false,
        },
        _ => false,
    }
}

/// Whether the next section of the seat's insert answers so.
pub(crate) fn inserts<O: OpClass>(state: &mut State<O>, seat: SeatNo, out: InsertOut) -> bool
    ensures { OthersStay state.old state.new seat }
{
    match state.open_of(seat) {
        OpenKind::Insert => match state.insert_step(seat) {
            Ok(came) => came == out,
            Err(_) => false,
        },
        _ => false,
    }
}

/// Whether the seat's scan copies an inner tuple at its first item.
pub(crate) fn copies<O: OpClass>(bare: &mut Bare<O>, seat: SeatNo) -> bool
    ensures others { OthersStay bare.old bare.new seat }
    ensures copied { IsTrue result → HasCopy (stage_at bare.new seat) }
{
    match bare.open_of(seat) {
        OpenKind::Scan { held } if held > 0 => match bare.scan_copy(seat, 0) {
            Ok(ScanCopy::Sift(Copied::Inner { .. })) => true,
            _ => false,
        },
        _ => false,
    }
}
