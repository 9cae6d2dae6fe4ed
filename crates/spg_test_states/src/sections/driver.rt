ghost use Rattle.std.specs.Prelude.{◌≡◌, true, false, IfOk, OnOk};
ghost use Rattle.spg_core.specs.Stage.{free, IsInserting};
ghost use Rattle.spg_core.specs.Seen.{stage_at};

use spg_base::{Memory, Row, SeatNo};
use spg_core::{InsertOut, OpenRefused, State, StepRefused};
use spg_opclass::OpClass;
use spg_rows::Why;

/// Whether the insert of seat 0 has ended with a section. It is given up where the index is full.
fn ends<O: OpClass>(state: &mut State<O>) -> Result<bool, Memory>
    requires { IsInserting (stage_at state.old 0) }
    ensures ended { IfOk result (λ ended. ended ≡ true → stage_at state.new 0 ≡ free) }
    ensures goes_on { IfOk result (λ ended. ended ≡ false → IsInserting (stage_at state.new 0)) }
{
    match state.insert_step(SeatNo::first()) {
        Ok(InsertOut::Put) => Ok(true),
        Ok(_) => Ok(false),
        Err(StepRefused::IndexFull) => {
            state.abandon(SeatNo::first(), Why::Full);
            Ok(true)
        }
        Err(_) => Err(Memory),
    }
}

/// Begins an insert as seat 0, and does at most so many of its sections. What has not ended then is
/// given up.
pub(crate) fn begin<O: OpClass>(
    state: &mut State<O>,
    row: Row,
    key: Option<O::Key>,
    sections: u8,
) -> Result<(), Memory>
    requires { stage_at state.old 0 ≡ free }
    ensures { OnOk result (stage_at state.new 0 ≡ free) }
{
    match state.open_insert(SeatNo::first(), row, key) {
        Ok(()) => {}
        Err(_) => return Err(Memory),
    }
    for _ in 0..sections {
        if ends(state)? {
            return Ok(());
        }
    }
    state.abandon(SeatNo::first(), Why::Given);
    Ok(())
}
