ghost use Rattle.std.specs.Prelude.{true, false, ◌≡◌, ◌<◌, ◌+◌, ◌↔◌, ℕ, Some, IfOk, OnOk, OnErr, IsErrOf, IsTrue};
ghost use Rattle.spg_rows.specs.declared.table.RowState.TheVariants as row_state;
ghost use Rattle.spg_rows.specs.Rows.{is_live};
ghost use Rattle.spg_seats.specs.Descending.{ChangesHeld};
ghost use Rattle.spg_core.specs.Stage.{free, IsSweeping};
ghost use Rattle.spg_core.specs.Seen.{stage_at, past_of};
ghost use Rattle.spg_core.specs.Stepping.{Grows};
ghost use Rattle.spg_core.specs.Blocked.{IsWorkFree};
ghost use Rattle.spg_core.specs.Sections.{OthersHold, KillsRow, OpensVacuum, StepsVacuum};
ghost use Rattle.spg_core.specs.Runs.{opens_vacuum};
ghost use Rattle.spg_core.specs.Calls.{IsCall, WorksOn, SweepsPages, kill_of};

use crate::answer::{VacuumOut, VacuumRefused};
use crate::kept::{Kept, ROOM};
use crate::slot::{Slot, opened, set_slot};
use crate::sweeping::{held_slot, sweep_slot, tell_sweeps};
use crate::waiting::vacuum_seat;
use spg_base::{Memory, Row, SeatNo, Stamp};
use spg_opclass::OpClass;
use spg_rows::{Event, RowState};
use spg_tree::Touched;
use spg_vacuum::Vacuum;

/// No page has more tuples.
const MOST_SWEEPS: u64 = 408;

impl<O: OpClass> Kept<O> {
    pub(crate) fn kill(&mut self, seat: SeatNo, row: Row) -> Result<bool, Memory>
        requires free { stage_at self.old seat ≡ free }
        ensures ok { IfOk result (λ killed. KillsRow self.old self.new seat row killed) }
        ensures call { IfOk result (λ killed. IsCall O.meaning self.old self.new seat (kill_of row killed)) }
        ensures live { OnErr result (is_live row (past_of self.old) ≡ true) }
        ensures err { OnErr result (self.new ≡ self.old) }
    {
        if !is_live(self.rows.state(row)) {
            return Ok(false);
        }
        self.journal.reserve(ROOM)?;
        self.later.add(row)?;
        self.rows.kill(row, self.journal.len());
        self.journal.append(Event::Kill { seat, row });
        self.table.set_touched(Touched::new());
        Ok(true)
    }

    pub(crate) fn open_vacuum(&mut self, seat: SeatNo) -> Result<(), VacuumRefused>
        requires free { stage_at self.old seat ≡ free }
        ensures ok { OnOk result (OpensVacuum self.old self.new seat) }
        ensures call { OnOk result (IsCall O.meaning self.old self.new seat opens_vacuum) }
        ensures open { (by : ℕ) → IsErrOf result (VacuumRefused.Open by) ↔ IsSweeping (stage_at self.old by) }
        ensures err { OnErr result (self.new ≡ self.old) }
    {
        if let Some(by) = vacuum_seat(&self.slots) {
            return Err(VacuumRefused::Open { by });
        }
        self.journal.reserve(ROOM)?;
        self.targets.take_all(&mut self.later)?;
        let at = self.journal.len();
        self.vacuums.open(at)?;
        self.journal.append(Event::OpenVacuum { seat });
        let vacuum = Vacuum::open(self.alloc, at, Stamp::at(self.table.clock()));
        set_slot(&mut self.slots, seat, Slot::Vacuum(vacuum));
        self.table.set_touched(Touched::new());
        Ok(())
    }

    pub(crate) fn vacuum_step(&mut self, seat: SeatNo) -> Result<VacuumOut, Memory>
        requires sweeping { IsSweeping (stage_at self.old seat) }
        ensures ok { IfOk result (λ out. StepsVacuum self.old self.new seat out) }
        ensures call { IfOk result (λ out. WorksOn O.meaning self.old self.new seat out) }
        ensures changes { IfOk result (λ _. SweepsPages O.meaning self.old self.new seat) }
        ensures others { OthersHold self.old.table self.new.table seat }
        ensures within { ChangesHeld self.old.table self.new.table seat }
        ensures grows { Grows self.old.table self.new.table }
        ensures latched { OnErr result (IsWorkFree self.old seat) }
        ensures err { OnErr result (self.new ≡ self.old) }
    {
        match held_slot(&self.table, self.slots.as_slice(), seat) {
            Some(held) => {
                self.table.set_touched(Touched::new());
                Ok(VacuumOut::Latched {
                    block: held.0,
                    by: held.1,
                })
            }
            None => self.sweep(seat),
        }
    }

    /// A section of a vacuum, for which there is room in the journal first.
    fn sweep(&mut self, seat: SeatNo) -> Result<VacuumOut, Memory>
        requires sweeping { IsSweeping (stage_at self.old seat) }
        ensures ok { IfOk result (λ out. StepsVacuum self.old self.new seat out) }
        ensures call { IfOk result (λ out. WorksOn O.meaning self.old self.new seat out) }
        ensures changes { IfOk result (λ _. SweepsPages O.meaning self.old self.new seat) }
        ensures others { OthersHold self.old.table self.new.table seat }
        ensures within { ChangesHeld self.old.table self.new.table seat }
        ensures grows { Grows self.old.table self.new.table }
        ensures err { OnErr result (self.new ≡ self.old) }
    {
        self.journal.reserve(MOST_SWEEPS + ROOM)?;
        let stepped = sweep_slot(
            self.alloc,
            &mut self.table,
            &mut self.slots,
            &self.targets,
            seat,
        )?;
        if let VacuumOut::Latched { .. } = stepped.out {
            return Ok(stepped.out);
        }
        if let VacuumOut::Finished { swept } = stepped.out {
            self.vacuums.end(self.journal.len());
            self.journal.append(Event::CloseVacuum { seat, swept });
            set_slot(&mut self.slots, seat, Slot::Free);
            return Ok(stepped.out);
        }
        tell_sweeps(
            &mut self.journal,
            &mut self.rows,
            &mut self.targets,
            seat,
            stepped.opened,
            stepped.rows.as_slice(),
        );
        let _events = self.journal.len();
        Ok(stepped.out)
    }
}

fn is_live(state: RowState) -> bool
    ensures { IsTrue result ↔ (state ≡ row_state.Live) }
{
    match state {
        RowState::Live => true,
        _ => false,
    }
}
