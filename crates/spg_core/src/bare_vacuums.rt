ghost use Rattle.std.specs.Prelude.{true, ◌≡◌, ◌<◌, ◌↔◌, ℕ, IfOk, OnOk, OnErr, IsErrOf};
ghost use Rattle.spg_rows.specs.Rows.{is_live};
ghost use Rattle.spg_seats.specs.Descending.{ChangesHeld};
ghost use Rattle.spg_core.specs.Stage.{free, IsSweeping};
ghost use Rattle.spg_core.specs.Seen.{stage_at, past_of};
ghost use Rattle.spg_core.specs.Stepping.{Grows};
ghost use Rattle.spg_core.specs.Blocked.{IsWorkFree};
ghost use Rattle.spg_core.specs.Sections.{OthersHold, KillsRow, OpensVacuum, StepsVacuum};
ghost use Rattle.spg_core.specs.Runs.{opens_vacuum};
ghost use Rattle.spg_core.specs.Calls.{IsCall, WorksOn, SweepsPages, kill_of};

use crate::answer::{VacuumOut, VacuumRefused};
use crate::bare::Bare;
use spg_base::{Memory, Row, SeatNo};
use spg_opclass::OpClass;

impl<O: OpClass> Bare<O> {
    /// Deletes the row. True exactly where it is live; else nothing changes. For a row that is not live
    /// no memory is wanted.
    pub fn kill(&mut self, seat: SeatNo, row: Row) -> Result<bool, Memory>
        requires free { stage_at self.old seat ≡ free }
        ensures ok { IfOk result (λ killed. KillsRow self.old self.new seat row killed) }
        ensures call { IfOk result (λ killed. IsCall O.meaning self.old self.new seat (kill_of row killed)) }
        ensures live { OnErr result (is_live row (past_of self.old) ≡ true) }
        ensures err { OnErr result (self.new ≡ self.old) }
    {
        self.kept.kill(seat, row)
    }

    /// Opens a vacuum. Its targets are the rows that are deleted by now and not swept. `Open` exactly
    /// where that seat has a vacuum open.
    pub fn open_vacuum(&mut self, seat: SeatNo) -> Result<(), VacuumRefused>
        requires free { stage_at self.old seat ≡ free }
        ensures ok { OnOk result (OpensVacuum self.old self.new seat) }
        ensures call { OnOk result (IsCall O.meaning self.old self.new seat opens_vacuum) }
        ensures open { (by : ℕ) → IsErrOf result (VacuumRefused.Open by) ↔ IsSweeping (stage_at self.old by) }
        ensures err { OnErr result (self.new ≡ self.old) }
    {
        self.kept.open_vacuum(seat)
    }

    /// The next section of a vacuum. `Pending` exactly where it handles the first place of its pending
    /// list that is not done; `Block` exactly where all of these are done, and it handles the next
    /// block; `Finished` exactly where there is no next block either, and the vacuum has ended then.
    /// `Latched` exactly where another seat has latched the block to be handled, and nothing changes;
    /// that wants no memory. The rows that it sweeps are told in the order of the offsets that they
    /// had. Redirects become placeholders whose stamps are below the opening stamp of the vacuum and of
    /// each open scan, so what began at such a stamp takes no harm.
    pub fn vacuum_step(&mut self, seat: SeatNo) -> Result<VacuumOut, Memory>
        requires sweeping { IsSweeping (stage_at self.old seat) }
        ensures ok { IfOk result (λ out. StepsVacuum self.old self.new seat out) }
        ensures call { IfOk result (λ out. WorksOn O.meaning self.old self.new seat out) }
        ensures changes { IfOk result (λ _. SweepsPages O.meaning self.old self.new seat) }
        ensures others { OthersHold self.old.table self.new.table seat }
        ensures within { ChangesHeld self.old.table self.new.table seat }
        ensures grows { Grows self.old.table self.new.table }
        ensures latched { OnErr result (IsWorkFree self.old seat) }
        ensures err { OnErr result (self.new ≡ self.old) }
    {
        self.kept.vacuum_step(seat)
    }
}
