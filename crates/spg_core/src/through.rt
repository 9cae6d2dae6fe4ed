ghost use Rattle.std.specs.Prelude.{◌≡◌, ◌+◌, ◌^◌, IfOk, OnErr, IsErrOf};
ghost use Rattle.spg_tree.specs.declared.stand.StepRefused.TheVariants.{IndexFull, ClockFull};
ghost use Rattle.spg_core.specs.Stage.{IsInserting};
ghost use Rattle.spg_core.specs.Seen.{stage_at};
ghost use Rattle.spg_core.specs.Stepping.{IsNearLimit, Grows};
ghost use Rattle.spg_seats.specs.Descending.{ChangesHeld};
ghost use Rattle.spg_core.specs.Sections.{IsHeavy, OthersHold, SeatFindsNoPage, SeatTicks};
ghost use Rattle.spg_core.specs.Through.{StillInserts, RunsThrough, StepsOn, StepsThrough, OthersStay};

use crate::answer::{InsertOut, InsertRan};
use crate::state::State;
use spg_base::SeatNo;
use spg_opclass::OpClass;
use spg_tree::StepRefused;

impl<O: OpClass> State<O> {
    /// The sections of an insert one after another, each as `insert_step` does it, until its row is put,
    /// another seat holds the block to be visited, or a section is refused. It returns, since each section
    /// takes one of those that may come yet. After a refusal the sections before it stand, and the insert is
    /// open as they left it. `IndexFull` only where fewer than 4 blocks are left below the limit, `ClockFull`
    /// only where the clock is 2^48 - 1, both only where the keys of its tree that were ever inserted take
    /// more than 8,160 bytes. After `Put` and `Restarted` the seat has nothing latched. It waits for nobody.
    pub fn insert_through(&mut self, seat: SeatNo) -> Result<InsertRan, StepRefused>
        requires inserting { IsInserting (stage_at self.old seat) }
        ensures ok { IfOk result (λ ran. RunsThrough self.old self.new seat ran) }
        ensures steps { IfOk result (λ ran. StepsThrough O.meaning self.old self.new seat ran) }
        ensures stay { OthersStay self.old self.new seat }
        ensures others { OthersHold self.old.table self.new.table seat }
        ensures within { ChangesHeld self.old.table self.new.table seat }
        ensures grows { Grows self.old.table self.new.table }
        ensures full { IsErrOf result IndexFull → IsHeavy O.meaning self.new seat × IsNearLimit self.new.table }
        ensures clock { IsErrOf result ClockFull → IsHeavy O.meaning self.new seat × (self.new.table.clock + 1 ≡ 2 ^ 48) }
        ensures full_where { IsErrOf result IndexFull → SeatFindsNoPage O.meaning self.new seat }
        ensures clock_where { IsErrOf result ClockFull → SeatTicks O.meaning self.new seat }
        ensures err { OnErr result (StillInserts self.old self.new seat) }
        ensures err_steps { OnErr result (StepsOn O.meaning self.old self.new seat) }
    {
        // Each section takes one of those that may come yet, and these are fewer than 2^64, so a return
        // leaves the loop.
        let _count = self.pages().page_count();
        for _turn in 0..u64::MAX {
            match self.insert_step(seat)? {
                InsertOut::Descended | InsertOut::Restructured => {}
                InsertOut::Restarted { block, by } => return Ok(InsertRan::Restarted { block, by }),
                InsertOut::Put => return Ok(InsertRan::Put),
            }
        }
        unreachable!()
    }
}
