ghost use Rattle.std.specs.Prelude.{◌≡◌, ◌∷◌, [], ℕ, OnOk, OnErr, IsErrOf};
ghost use Rattle.spg_rows.specs.declared.event.Event.{Event as Entry};
ghost use Rattle.spg_rows.specs.declared.event.Event.TheVariants.{OpenVacuum as Opens};
ghost use Rattle.spg_turn.specs.declared.rule.View.{View};
ghost use Rattle.spg_turn.specs.Passes.{pass_turn, pass_view};
ghost use Rattle.spg_calls.specs.Doing.{idle, sweeps};
ghost use Rattle.spg_core.specs.Seen.{stage_at, past_of};
ghost use Rattle.spg_core.specs.Stage.{free, IsSweeping};
ghost use Rattle.spg_core.specs.Sections.{OpensVacuum};
ghost use Rattle.spg_desk.specs.Knowing.{IsAtRest, doing_at};
ghost use Rattle.spg_desk.specs.Told.{Told};
ghost use Rattle.spg_desk.specs.Progress.{SweepsOn};
ghost use Rattle.spg_desk.specs.Acting.{HasVacuum, sweep_end, StepsSweep, OpensSweep, TellsSweep, EndsSweep};
ghost use Rattle.spg_desk.specs.Passes.{desk_id, desk_of, view_of};
ghost use Rattle.spg_desk.specs.Answers.{NoneSweeps, DidVacuum, refused_vacuum, ended_vacuum};

use crate::answer::VacuumAnswer;
use crate::desk::Desk;
use crate::ended::Swept;
use crate::pass::{Going, Pass};
use crate::span::joined;
use spg_base::{Memory, SeatNo, Span};
use spg_core::{Bare, VacuumOut, VacuumRefused};
use spg_opclass::OpClass;
use spg_rows::Why;
use std::sync::Wait;

/// Opens a vacuum. `Open` only where that seat has one open, and `Memory` only where none has.
fn open_on<O: OpClass>(bare: &mut Bare<O>, seat: SeatNo) -> Result<(), VacuumRefused>
    requires free { stage_at bare.old seat ≡ free }
    ensures ok { OnOk result (OpensVacuum bare.old bare.new seat) }
    ensures open { (by : ℕ) → IsErrOf result (VacuumRefused.Open by) → HasVacuum (past_of bare.old) by }
    ensures memory { IsErrOf result VacuumRefused.Memory → NoneSweeps (past_of bare.old) }
    ensures err { OnErr result (bare.new ≡ bare.old) }
{
    // What each seat has open is what the journal says.
    let _journal = bare.journal();
    let opened = bare.open_vacuum(seat);
    if let Err(VacuumRefused::Open { by }) = &opened {
        let _open = bare.open_of(*by);
    }
    opened
}

/// Does the next section of the seat's vacuum. After a refusal the vacuum is given up. It goes on only
/// where a section was done that did not end it, or another seat holds the block.
fn sweep_on<O: OpClass>(bare: &mut Bare<O>, seat: SeatNo) -> Swept
    requires sweeping { IsSweeping (stage_at bare.old seat) }
    ensures steps { StepsSweep bare.old bare.new seat result }
    ensures on { SweepsOn bare.old bare.new seat result }
{
    match &bare.vacuum_step(seat) {
        Ok(VacuumOut::Block | VacuumOut::Pending | VacuumOut::Latched { .. }) => Swept::On,
        Ok(VacuumOut::Finished { swept }) => Swept::Closed(*swept),
        Err(Memory) => {
            bare.abandon(seat, Why::Given);
            Swept::Refused
        }
    }
}

/// How the section ended the vacuum, if it did.
fn sweep_end(swept: Swept) -> Option<Result<u64, Memory>>
    ensures { result ≡ sweep_end swept }
{
    match swept {
        Swept::On => None,
        Swept::Closed(count) => Some(Ok(count)),
        Swept::Refused => Some(Err(Memory)),
    }
}

/// What a vacuum answers that was not opened.
fn refused_vacuum(refused: &VacuumRefused, span: Span) -> VacuumAnswer
    ensures { result ≡ refused_vacuum refused.now span }
{
    match refused {
        VacuumRefused::Open { by } => VacuumAnswer::Open { by: *by, span },
        VacuumRefused::Memory => VacuumAnswer::Memory(span),
    }
}

/// What a vacuum answers that has ended.
fn ended_vacuum(swept: Result<u64, Memory>, span: Span) -> VacuumAnswer
    ensures { result ≡ ended_vacuum swept span }
{
    match swept {
        Ok(swept) => VacuumAnswer::Vacuumed { swept, span },
        Err(Memory) => VacuumAnswer::Memory(span),
    }
}

impl<O: OpClass> Desk<O> {
    /// The turn in which a vacuum opens.
    fn open_vacuum<R: Wait>(
        &self,
        rt: &R,
        going: Going<O>,
    ) -> (Going<O>, Span, Result<(), VacuumRefused>)
        requires own { pass_turn going.pass ≡ desk_id self.now }
        requires idle { doing_at (pass_view going.pass) ≡ idle }
        ensures own { pass_turn result.0.pass ≡ desk_id self.now }
        ensures told { OpensSweep O.meaning (pass_view going.pass) (pass_view result.0.pass) result.1 result.2 }
    {
        let mut held = self.enter(rt, going);
        let seat = held.seat();
        let from = held.state().journal().len();
        let opened = open_on(held.state_mut(), seat);
        let (going, span) = self.leave(held, from);
        (going, span, opened)
    }

    /// The turn of a section of a vacuum.
    fn sweep_once<R: Wait>(&self, rt: &R, going: Going<O>) -> (Going<O>, Span, Swept)
        requires own { pass_turn going.pass ≡ desk_id self.now }
        requires sweeping { doing_at (pass_view going.pass) ≡ sweeps }
        ensures own { pass_turn result.0.pass ≡ desk_id self.now }
        ensures told { TellsSweep O.meaning (pass_view going.pass) (pass_view result.0.pass) result.1 result.2 }
    {
        let mut held = self.enter(rt, going);
        let seat = held.seat();
        let from = held.state().journal().len();
        let swept = sweep_on(held.state_mut(), seat);
        let (going, span) = self.leave(held, from);
        (going, span, swept)
    }

    /// The sections of a vacuum that has done the span before, until it has ended.
    fn sweep<R: Wait>(
        &self,
        rt: &R,
        going: Going<O>,
        opened: Span,
    ) -> (Going<O>, Span, Result<u64, Memory>)
        requires own { pass_turn going.pass ≡ desk_id self.now }
        requires sweeping { doing_at (pass_view going.pass) ≡ sweeps }
        ensures own { pass_turn result.0.pass ≡ desk_id self.now }
        ensures told { (v : View (Entry O O.Key O.Recon O.Cond)) → Told O.meaning v (pass_view going.pass) opened (Opens v.number ∷ []) → EndsSweep O.meaning v (pass_view result.0.pass) result.1 result.2 }
    {
        let mut going = going;
        let mut span = opened;
        for _ in rt.forever() {
            let (next, more, swept) = self.sweep_once(rt, going);
            going = next;
            span = joined(span, more);
            let end = sweep_end(swept);
            if let Some(end) = end {
                return (going, span, end);
            }
        }
        unreachable!()
    }

    /// Removes the entries of the rows that were deleted, by a vacuum that is opened and run to its
    /// end. `Open` exactly where that seat has a vacuum open in the turn in which this one would open.
    /// After a refusal for want of memory it is given up.
    pub fn vacuum<R: Wait>(&self, rt: &R, pass: Pass<O>) -> (Pass<O>, VacuumAnswer)
        requires own { desk_of pass ≡ desk_id self.now }
        ensures own { desk_of result.0 ≡ desk_of pass }
        ensures did { DidVacuum O.meaning (view_of pass) (view_of result.0) result.1 }
        ensures free { IsAtRest (view_of result.0) }
    {
        let Pass { going } = pass;
        let (going, first, opened) = self.open_vacuum(rt, going);
        if let Err(refused) = &opened {
            return (Pass { going }, refused_vacuum(refused, first));
        }
        let (going, span, swept) = self.sweep(rt, going, first);
        (Pass { going }, ended_vacuum(swept, span))
    }
}
