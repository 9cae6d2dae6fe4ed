//! Sections of a vacuum, of which it is told how far they come.
ghost use Rattle.std.specs.Prelude.{◌≡◌, ◌<◌, suc, IsTrue};
ghost use Rattle.spg_core.specs.Seen.{stage_at};
ghost use Rattle.spg_test_states.specs.States.{next_of, IsLatchedAt, HasMore, HasDone};

use spg_base::{Block, SeatNo};
use spg_core::{OpenKind, State, VacuumOut};
use spg_opclass::OpClass;

/// Whether a vacuum opens. Then it is at block 1.
pub(crate) fn opens_vacuum<O: OpClass>(state: &mut State<O>, seat: SeatNo) -> bool
    ensures { IsTrue result → next_of (stage_at state.new seat) ≡ 1 }
{
    match state.open_of(seat) {
        OpenKind::Nothing => match state.open_vacuum(seat) {
            Ok(()) => true,
            Err(_) => false,
        },
        _ => false,
    }
}

/// Whether the seat's vacuum handles the next block.
pub(crate) fn handles_block<O: OpClass>(state: &mut State<O>, seat: SeatNo) -> bool
    ensures { IsTrue result → next_of (stage_at state.new seat) ≡ suc (next_of (stage_at state.old seat)) }
{
    match state.open_of(seat) {
        OpenKind::Vacuum => match state.vacuum_step(seat) {
            Ok(VacuumOut::Block) => true,
            _ => false,
        },
        _ => false,
    }
}

/// Whether the seat's vacuum handles the first place to do. That is done then, unless it was the last.
pub(crate) fn handles_place<O: OpClass>(state: &mut State<O>, seat: SeatNo) -> bool
    ensures next { IsTrue result → next_of (stage_at state.new seat) ≡ next_of (stage_at state.old seat) }
    ensures done { IsTrue result → HasMore (stage_at state.new seat) → HasDone (stage_at state.new seat) }
{
    match state.open_of(seat) {
        OpenKind::Vacuum => match state.vacuum_step(seat) {
            Ok(VacuumOut::Pending) => true,
            _ => false,
        },
        _ => false,
    }
}

/// Whether that is the block.
fn is_block(block: Block, wanted: u32) -> bool
    ensures { IsTrue result → block ≡ wanted }
{
    block.0 == wanted
}

/// Whether another seat has latched the block, to which a vacuum came.
fn is_latched(out: &VacuumOut, wanted: u32) -> bool
    ensures { IsTrue result → IsLatchedAt out.now wanted }
{
    match out {
        VacuumOut::Latched { block, .. } => is_block(*block, wanted),
        _ => false,
    }
}

/// Whether the seat's vacuum comes to a block that another seat has latched. Where it has seen that block,
/// it comes there for a place to do.
pub(crate) fn waits_for<O: OpClass>(state: &mut State<O>, seat: SeatNo, block: u32) -> bool
    ensures stays { IsTrue result → stage_at state.new seat ≡ stage_at state.old seat }
    ensures more { IsTrue result → block < next_of (stage_at state.old seat) → HasMore (stage_at state.old seat) }
{
    match state.open_of(seat) {
        OpenKind::Vacuum => match state.vacuum_step(seat) {
            Ok(out) => is_latched(&out, block),
            Err(_) => false,
        },
        _ => false,
    }
}
