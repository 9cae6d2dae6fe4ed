ghost use Rattle.std.specs.Prelude.{◌≡◌, ◌++◌, [], ◌∷◌, ℕ, true, List as Items};
ghost use Rattle.spg_core.specs.Stage.{free};
ghost use Rattle.spg_core.specs.Seen.{stage_at, past_of};
ghost use Rattle.spg_script.specs.Line.{is_name};
ghost use Rattle.spg_script.specs.declared.command.Command.TheVariants as asked;
ghost use Rattle.spg_report.specs.declared.record.Record.{Record as Done};
ghost use Rattle.spg_perform.specs.Session.{AllClosed, LeadsOn, RoseBy, StaysUnless, is_image_fault, standing};
ghost use Rattle.spg_perform.specs.Saved.{IsSaved};
ghost use Rattle.spg_commands.specs.Acted.{Acts, CanBeDone, task_of};

use crate::delete::delete;
use crate::find::find;
use crate::insert::insert;
use crate::near::near;
use crate::position::{position, recorded};
use crate::save::save;
use crate::stat::stat;
use crate::vacuum::vacuum;
use spg_base::{Bytes, SeatNo};
use spg_core::State;
use spg_io::Images;
use spg_report::Record;
use spg_script::{Command, Spoken};
use spg_served::Served;
use std::alloc::Global;

/// Saves the pages under a name. The journal is as it was.
fn saved<O: Spoken, M: Images>(
    state: &State<O>,
    images: &mut M,
    seat: SeatNo,
    name: &Bytes,
) -> Record
    requires free { stage_at state.now seat ≡ free }
    requires named { is_name name.now ≡ true }
    ensures acts { Acts O.meaning O.speech state.now state.now seat true (asked.Save name.now) result }
    ensures saved { IsSaved O.code_number state.now.table (M.held images.old) (M.held images.new) name.now result.outcome }
    ensures faults { RoseBy (is_image_fault result.outcome) (M.faults images.old) (M.faults images.new) }
    ensures stays { StaysUnless result.outcome (M.faults images.old) (M.faults images.new) }
{
    let from = position(state);
    let outcome = save(state, images, name);
    recorded(state, from, outcome)
}

/// Does one command of a seat.
pub(crate) fn command<O: Served, M: Images>(
    alloc: Global,
    state: &mut State<O>,
    images: &mut M,
    seat: SeatNo,
    command: &Command,
) -> Record
    requires closed { AllClosed (past_of state.old) }
    requires can { CanBeDone O.speech true command.now }
    ensures leads { (block : ℕ) (records : Items Done) → LeadsOn O.meaning O.speech O.code_number
        (standing state.old (M.held images.old) (M.faults images.old) records)
        (standing state.new (M.held images.new) (M.faults images.new) (records ++ result ∷ []))
        (task_of block seat true command.now ∷ []) }
    ensures closed { AllClosed (past_of state.new) }
{
    // A seat that has nothing open is free, before and after.
    let _ = state.open_of(seat);
    let done = match command {
        Command::Insert { row, key } => insert(state, seat, *row, key),
        Command::Delete { row } => delete(state, seat, *row),
        Command::Find { query } => find(alloc, state, seat, query),
        Command::Save { name } => saved(state, images, seat, name),
        Command::Stat => stat(state, seat),
        Command::Near { target, limit } => near(alloc, state, seat, *target, *limit),
        Command::Vacuum => vacuum(state, seat),
    };
    let _ = state.open_of(seat);
    let _ = state.journal();
    let _ = state.pages();
    done
}
