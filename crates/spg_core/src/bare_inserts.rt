ghost use Rattle.std.specs.Prelude.{false, ◌≡◌, ◌<◌, ◌+◌, ◌^◌, ◌↔◌, ◌⊎◌, ℕ, suc, Some, IfOk, OnOk, OnErr, IsErrOf};
ghost use Rattle.spg_rows.specs.Rows.{held_by, is_claimed};
ghost use Rattle.spg_rows.specs.Told.{IsUsed};
ghost use Rattle.spg_tree.specs.Table.{sheets_of};
ghost use Rattle.spg_scan.specs.Others.{ChangesPages};
ghost use Rattle.spg_seats.specs.Descending.{ChangesHeld};
ghost use Rattle.spg_core.specs.Stage.{free, IsInserting};
ghost use Rattle.spg_core.specs.Seen.{stage_at, past_of};
ghost use Rattle.spg_core.specs.Stepping.{IsNearLimit, Grows, MakesAtMostOne};
ghost use Rattle.spg_core.specs.Ends.{SeatEnds, SeatThenEnds};
ghost use Rattle.spg_core.specs.Looking.{LooksAt, StepsInsert, Asks, IsSpotted, IsBunch};
ghost use Rattle.spg_core.specs.Sections.{OpensInsert, IsInsertOut, TellsSection, LatchesAfter, OthersHold, IsHeavy, SeatFindsNoPage, SeatTicks};
ghost use Rattle.spg_core.specs.Runs.{opens_insert};
ghost use Rattle.spg_core.specs.Calls.{IsCall, Inserts, Looks};

use crate::answer::{InsertOut, OpenRefused};
use crate::bare::Bare;
use crate::look::{ApplyRefused, Look};
use spg_base::{Memory, Row, SeatNo};
use spg_opclass::{Chosen, OpClass, Parted, Started};
use spg_tree::StepRefused;

impl<O: OpClass> Bare<O> {
    /// Whether an insert of the row may be opened: `RowUsed` exactly where the row is claimed, and waits
    /// for nobody. `RowHeld` exactly where it waits for this seat.
    pub(crate) fn may_claim(&self, row: Row) -> Result<(), OpenRefused>
        ensures ok { OnOk result (is_claimed row (past_of self.now) ≡ false) }
        ensures row_used { IsErrOf result OpenRefused.RowUsed ↔ IsUsed (past_of self.now) row }
        ensures row_held { (by : ℕ) → IsErrOf result (OpenRefused.RowHeld by) ↔ (held_by row (past_of self.now) ≡ Some by) }
    {
        self.kept.may_claim(row)
    }

    /// Opens an insert. It claims the row. `RowUsed` exactly where the row is claimed, and waits for
    /// nobody. `RowHeld` exactly where it waits for this seat.
    pub fn open_insert(
        &mut self,
        seat: SeatNo,
        row: Row,
        started: Started<O>,
    ) -> Result<(), OpenRefused>
        requires free { stage_at self.old seat ≡ free }
        ensures ok { OnOk result (OpensInsert O.meaning self.old self.new seat row started) }
        ensures call { OnOk result (IsCall O.meaning self.old self.new seat (opens_insert row started)) }
        ensures row_used { IsErrOf result OpenRefused.RowUsed ↔ IsUsed (past_of self.old) row }
        ensures row_held { (by : ℕ) → IsErrOf result (OpenRefused.RowHeld by) ↔ (held_by row (past_of self.old) ≡ Some by) }
        ensures err { OnErr result (self.new ≡ self.old) }
    {
        self.kept.open_insert(seat, row, started)
    }

    /// The next section of an insert (docs/ALGORITHM.md, Insert). `ClockFull` comes exactly where a chain
    /// moves, one below a root is divided, or a tuple with one more node does not fit in its place, and the
    /// clock is 2^48 - 1, unless memory is short before; `IndexFull` exactly where a pick of the section
    /// finds no page, unless the clock or want of memory stops it before. Both only where the keys of its
    /// tree that were ever inserted take more than 8,160 bytes. `Restarted` comes only where another seat
    /// has latched the block that it names: the insert is at its start then. At its start, and once its row
    /// is put, the seat has latched no block.
    #[inline(always)]
    pub(crate) fn insert_step(&mut self, class: &O, seat: SeatNo) -> Result<InsertOut, StepRefused>
        requires inserting { IsInserting (stage_at self.old seat) }
        ensures ok { IfOk result (λ out. IsInsertOut self.old self.new seat out) }
        ensures call { IfOk result (λ out. Inserts O.meaning self.old self.new seat out) }
        ensures told { IfOk result (λ out. TellsSection O.meaning self.old self.new seat out) }
        ensures changes { IfOk result (λ _. ChangesPages O.meaning (past_of self.old) seat (sheets_of self.old.table) (sheets_of self.new.table) self.new.table.touched 0) }
        ensures latches { IfOk result (λ out. LatchesAfter self.new seat out) }
        ensures others { OthersHold self.old.table self.new.table seat }
        ensures within { ChangesHeld self.old.table self.new.table seat }
        ensures grows { Grows self.old.table self.new.table }
        ensures makes { IfOk result (λ _. MakesAtMostOne self.old.table self.new.table) }
        ensures ends { IfOk result (λ out. (n : ℕ) → SeatEnds O.meaning self.old seat (suc n) → SeatThenEnds O.meaning self.new seat n out) }
        ensures full { IsErrOf result StepRefused.IndexFull → IsHeavy O.meaning self.old seat × IsNearLimit self.old.table }
        ensures clock { IsErrOf result StepRefused.ClockFull → IsHeavy O.meaning self.old seat × (self.old.table.clock + 1 ≡ 2 ^ 48) }
        ensures full_where { IsErrOf result StepRefused.IndexFull → SeatFindsNoPage O.meaning self.old seat }
        ensures clock_where { IsErrOf result StepRefused.ClockFull → SeatTicks O.meaning self.old seat }
        ensures clock_first { SeatTicks O.meaning self.old seat → self.old.table.clock + 1 ≡ 2 ^ 48 → IsErrOf result StepRefused.ClockFull ⊎ IsErrOf result StepRefused.Memory }
        ensures no_page { SeatFindsNoPage O.meaning self.old seat → (SeatTicks O.meaning self.old seat → self.old.table.clock + 1 ≡ 2 ^ 48 → ⊥) → IsErrOf result StepRefused.IndexFull ⊎ IsErrOf result StepRefused.Memory }
        ensures err { OnErr result (self.new ≡ self.old) }
    {
        self.kept.insert_step(class, seat)
    }

    /// Looks at an open insert. `Choose` exactly where it stands at an inner tuple of the main tree,
    /// `Part` exactly where it divides leaves of the main tree: the class has a say there, gets a copy,
    /// and nothing changes. Else the next section is done, as `State::insert_step` tells, and `IndexFull`
    /// and `ClockFull` come only then.
    pub fn insert_look(&mut self, seat: SeatNo) -> Result<Look<O>, StepRefused>
        requires inserting { IsInserting (stage_at self.old seat) }
        ensures ok { IfOk result (λ look. LooksAt O.meaning self.old self.new seat look) }
        ensures call { IfOk result (λ look. Looks O.meaning self.old self.new seat look) }
        ensures others { OthersHold self.old.table self.new.table seat }
        ensures within { ChangesHeld self.old.table self.new.table seat }
        ensures grows { Grows self.old.table self.new.table }
        ensures full { IsErrOf result StepRefused.IndexFull → IsHeavy O.meaning self.old seat × IsNearLimit self.old.table }
        ensures clock { IsErrOf result StepRefused.ClockFull → IsHeavy O.meaning self.old seat × (self.old.table.clock + 1 ≡ 2 ^ 48) }
        ensures full_where { IsErrOf result StepRefused.IndexFull → SeatFindsNoPage O.meaning self.old seat }
        ensures clock_where { IsErrOf result StepRefused.ClockFull → SeatTicks O.meaning self.old seat }
        ensures clock_first { (Asks self.old seat → ⊥) → SeatTicks O.meaning self.old seat → self.old.table.clock + 1 ≡ 2 ^ 48 → IsErrOf result StepRefused.ClockFull ⊎ IsErrOf result StepRefused.Memory }
        ensures no_page { (Asks self.old seat → ⊥) → SeatFindsNoPage O.meaning self.old seat → (SeatTicks O.meaning self.old seat → self.old.table.clock + 1 ≡ 2 ^ 48 → ⊥) → IsErrOf result StepRefused.IndexFull ⊎ IsErrOf result StepRefused.Memory }
        ensures full_asks { IsErrOf result StepRefused.IndexFull → Asks self.old seat → ⊥ }
        ensures clock_asks { IsErrOf result StepRefused.ClockFull → Asks self.old seat → ⊥ }
        ensures err { OnErr result (self.new ≡ self.old) }
    {
        self.kept.insert_look(seat)
    }

    /// The section of an insert at an inner tuple, by what the class chose for a copy of it. `Changed`
    /// comes first, exactly where a look would not give this copy. Else all is as `State::insert_step`
    /// tells.
    pub fn insert_choose(
        &mut self,
        seat: SeatNo,
        chosen: &Chosen<O>,
    ) -> Result<InsertOut, ApplyRefused>
        requires inserting { IsInserting (stage_at self.old seat) }
        ensures ok { IfOk result (λ out. IsSpotted self.old seat chosen.now × StepsInsert O.meaning self.old self.new seat out) }
        ensures call { IfOk result (λ out. Inserts O.meaning self.old self.new seat out) }
        ensures changed { IsErrOf result ApplyRefused.Changed ↔ (IsSpotted self.old seat chosen.now → ⊥) }
        ensures others { OthersHold self.old.table self.new.table seat }
        ensures within { ChangesHeld self.old.table self.new.table seat }
        ensures grows { Grows self.old.table self.new.table }
        ensures full { IsErrOf result ApplyRefused.IndexFull → IsSpotted self.old seat chosen.now × IsHeavy O.meaning self.old seat × IsNearLimit self.old.table }
        ensures clock { IsErrOf result ApplyRefused.ClockFull → IsSpotted self.old seat chosen.now × IsHeavy O.meaning self.old seat × (self.old.table.clock + 1 ≡ 2 ^ 48) }
        ensures full_where { IsErrOf result ApplyRefused.IndexFull → SeatFindsNoPage O.meaning self.old seat }
        ensures clock_where { IsErrOf result ApplyRefused.ClockFull → SeatTicks O.meaning self.old seat }
        ensures clock_first { IsSpotted self.old seat chosen.now → SeatTicks O.meaning self.old seat → self.old.table.clock + 1 ≡ 2 ^ 48 → IsErrOf result ApplyRefused.ClockFull ⊎ IsErrOf result ApplyRefused.Memory }
        ensures no_page { IsSpotted self.old seat chosen.now → SeatFindsNoPage O.meaning self.old seat → (SeatTicks O.meaning self.old seat → self.old.table.clock + 1 ≡ 2 ^ 48 → ⊥) → IsErrOf result ApplyRefused.IndexFull ⊎ IsErrOf result ApplyRefused.Memory }
        ensures err { OnErr result (self.new ≡ self.old) }
    {
        self.kept.insert_choose(seat, chosen)
    }

    /// The section of an insert that divides leaves, by how the class divided a copy of their values.
    /// `Changed` comes first, exactly where a look would not give this copy. Else all is as
    /// `State::insert_step` tells.
    pub fn insert_part(
        &mut self,
        seat: SeatNo,
        parted: &Parted<O>,
    ) -> Result<InsertOut, ApplyRefused>
        requires inserting { IsInserting (stage_at self.old seat) }
        ensures ok { IfOk result (λ out. IsBunch self.old seat parted.now × StepsInsert O.meaning self.old self.new seat out) }
        ensures call { IfOk result (λ out. Inserts O.meaning self.old self.new seat out) }
        ensures changed { IsErrOf result ApplyRefused.Changed ↔ (IsBunch self.old seat parted.now → ⊥) }
        ensures others { OthersHold self.old.table self.new.table seat }
        ensures within { ChangesHeld self.old.table self.new.table seat }
        ensures grows { Grows self.old.table self.new.table }
        ensures full { IsErrOf result ApplyRefused.IndexFull → IsBunch self.old seat parted.now × IsHeavy O.meaning self.old seat × IsNearLimit self.old.table }
        ensures clock { IsErrOf result ApplyRefused.ClockFull → IsBunch self.old seat parted.now × IsHeavy O.meaning self.old seat × (self.old.table.clock + 1 ≡ 2 ^ 48) }
        ensures full_where { IsErrOf result ApplyRefused.IndexFull → SeatFindsNoPage O.meaning self.old seat }
        ensures clock_where { IsErrOf result ApplyRefused.ClockFull → SeatTicks O.meaning self.old seat }
        ensures clock_first { IsBunch self.old seat parted.now → SeatTicks O.meaning self.old seat → self.old.table.clock + 1 ≡ 2 ^ 48 → IsErrOf result ApplyRefused.ClockFull ⊎ IsErrOf result ApplyRefused.Memory }
        ensures no_page { IsBunch self.old seat parted.now → SeatFindsNoPage O.meaning self.old seat → (SeatTicks O.meaning self.old seat → self.old.table.clock + 1 ≡ 2 ^ 48 → ⊥) → IsErrOf result ApplyRefused.IndexFull ⊎ IsErrOf result ApplyRefused.Memory }
        ensures err { OnErr result (self.new ≡ self.old) }
    {
        self.kept.insert_part(seat, parted)
    }
}
