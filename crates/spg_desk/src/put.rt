// The sections of an insert, on the index that a turn lends.
ghost use Rattle.std.specs.Prelude.{◌≡◌, ◌+◌, ◌^◌, Option, Some};
ghost use Rattle.spg_base.specs.Row.{RowAt};
ghost use Rattle.spg_core.specs.declared.look.ApplyRefused.TheVariants as apply_refused;
ghost use Rattle.spg_tree.specs.declared.stand.StepRefused.TheVariants as step_refused;
ghost use Rattle.spg_core.specs.Seen.{stage_at, past_of};
ghost use Rattle.spg_core.specs.Stage.{IsInserting, MayGiveUp};
ghost use Rattle.spg_core.specs.Stepping.{IsNearLimit};
ghost use Rattle.spg_core.specs.Sections.{IsHeavy, GivesUp};
ghost use Rattle.spg_core.specs.Looking.{IsSpotted, IsBunch};
ghost use Rattle.spg_bounds.specs.Bounds.{IsLate};
ghost use Rattle.spg_desk.specs.Acting.{IsPutting, LooksPut, StepsPut, ended_of};
ghost use Rattle.spg_desk.specs.Progress.{GoesOn, LooksOn, step_end, refused_end};

use crate::ended::{Ended, Looked};
use spg_base::SeatNo;
use spg_core::{ApplyRefused, Bare, InsertOut, Look, StepRefused};
use spg_opclass::{Chosen, OpClass, Parted};
use spg_rows::Why;

/// How the insert ended, if the section ended it.
fn ended(out: &InsertOut) -> Option<Ended>
    ensures { result ≡ ended_of out.now }
{
    match out {
        InsertOut::Put => Some(Ended::Put),
        InsertOut::Descended | InsertOut::Restructured | InsertOut::Restarted { .. } => None,
    }
}

/// Gives the seat's insert up, as the index or its clock is full. So many inserts were opened that it
/// may be.
fn give_up<O: OpClass>(bare: &mut Bare<O>, seat: SeatNo, why: Why)
    requires inserting { IsInserting (stage_at bare.old seat) }
    requires why { MayGiveUp bare.old.table (stage_at bare.old seat) why }
    ensures up { GivesUp bare.old bare.new seat why }
    ensures late { IsLate bare.old.origin (past_of bare.old) why }
{
    bare.abandon(seat, why);
    // Each insert that was given up in the journal tells how many were opened.
    let _pages = bare.pages();
}

/// Gives the insert up after a refused section.
fn refuse_step<O: OpClass>(bare: &mut Bare<O>, seat: SeatNo, refused: StepRefused) -> Ended
    requires inserting { IsInserting (stage_at bare.old seat) }
    requires full { refused ≡ step_refused.IndexFull → IsHeavy O.meaning bare.old seat × IsNearLimit bare.old.table }
    requires clock { refused ≡ step_refused.ClockFull → IsHeavy O.meaning bare.old seat × (bare.old.table.clock + 1 ≡ 2 ^ 48) }
    ensures end { result ≡ step_end refused }
    ensures puts { (row : RowAt) (key : Option O.Key) → IsPutting row key (stage_at bare.old seat) → StepsPut O.meaning bare.old bare.new seat row key (Some result) }
{
    match refused {
        StepRefused::IndexFull => {
            give_up(bare, seat, Why::Full);
            Ended::Full
        }
        StepRefused::ClockFull => {
            give_up(bare, seat, Why::Clock);
            Ended::Clock
        }
        StepRefused::Memory => {
            bare.abandon(seat, Why::Given);
            Ended::Refused
        }
    }
}

/// Looks at the seat's insert, and does its next section where the class has no say in it. After a
/// refusal the insert is given up. It goes on only where a section was done, or the class is asked.
pub(crate) fn look_on<O: OpClass>(bare: &mut Bare<O>, seat: SeatNo) -> Looked<O>
    requires inserting { IsInserting (stage_at bare.old seat) }
    ensures puts { (row : RowAt) (key : Option O.Key) → IsPutting row key (stage_at bare.old seat) → LooksPut O.meaning bare.old bare.new seat row key result }
    ensures on { LooksOn O.meaning bare.old bare.new seat result }
{
    match bare.insert_look(seat) {
        Ok(Look::Stepped(out)) => Looked::Stepped(ended(&out)),
        Ok(Look::Choose(spotted)) => Looked::Choose(spotted),
        Ok(Look::Part(bunch)) => {
            if bunch.rests().len() > 0 {
                Looked::Part(bunch)
            } else {
                Looked::Stepped(None)
            }
        }
        Err(refused) => Looked::Stepped(Some(refuse_step(bare, seat, refused))),
    }
}

/// Gives the insert up after a refusal. One that was changed meanwhile goes on.
fn refuse<O: OpClass>(bare: &mut Bare<O>, seat: SeatNo, refused: ApplyRefused) -> Option<Ended>
    requires inserting { IsInserting (stage_at bare.old seat) }
    requires full { refused ≡ apply_refused.IndexFull → IsHeavy O.meaning bare.old seat × IsNearLimit bare.old.table }
    requires clock { refused ≡ apply_refused.ClockFull → IsHeavy O.meaning bare.old seat × (bare.old.table.clock + 1 ≡ 2 ^ 48) }
    ensures end { result ≡ refused_end refused }
    ensures puts { (row : RowAt) (key : Option O.Key) → IsPutting row key (stage_at bare.old seat) → StepsPut O.meaning bare.old bare.new seat row key result }
{
    match refused {
        ApplyRefused::Changed => None,
        ApplyRefused::IndexFull => Some(refuse_step(bare, seat, StepRefused::IndexFull)),
        ApplyRefused::ClockFull => Some(refuse_step(bare, seat, StepRefused::ClockFull)),
        ApplyRefused::Memory => Some(refuse_step(bare, seat, StepRefused::Memory)),
    }
}

/// Goes on with the seat's insert by what the class chose for a copy, unless that is not what it
/// stands at any more. After another refusal the insert is given up.
pub(crate) fn choose_on<O: OpClass>(
    bare: &mut Bare<O>,
    seat: SeatNo,
    chosen: &Chosen<O>,
) -> Option<Ended>
    requires inserting { IsInserting (stage_at bare.old seat) }
    ensures puts { (row : RowAt) (key : Option O.Key) → IsPutting row key (stage_at bare.old seat) → StepsPut O.meaning bare.old bare.new seat row key result }
    ensures on { GoesOn O.meaning bare.old bare.new seat (IsSpotted bare.old seat chosen.now) result }
{
    match bare.insert_choose(seat, chosen) {
        Ok(out) => ended(&out),
        Err(refused) => refuse(bare, seat, refused),
    }
}

/// The same by how the class divided copied values.
pub(crate) fn part_on<O: OpClass>(
    bare: &mut Bare<O>,
    seat: SeatNo,
    parted: &Parted<O>,
) -> Option<Ended>
    requires inserting { IsInserting (stage_at bare.old seat) }
    ensures puts { (row : RowAt) (key : Option O.Key) → IsPutting row key (stage_at bare.old seat) → StepsPut O.meaning bare.old bare.new seat row key result }
    ensures on { GoesOn O.meaning bare.old bare.new seat (IsBunch bare.old seat parted.now) result }
{
    match bare.insert_part(seat, parted) {
        Ok(out) => ended(&out),
        Err(refused) => refuse(bare, seat, refused),
    }
}
