ghost use Rattle.std.specs.Prelude.{false, ◌≡◌, ◌<◌, ◌+◌, ◌^◌, ◌↔◌, ◌⊎◌, ℕ, suc, Option, Some, None, IfOk, OnOk, OnErr, IsErrOf, IsTrue};
ghost use Rattle.spg_rows.specs.Rows.{held_by, is_claimed};
ghost use Rattle.spg_rows.specs.Told.{IsUsed};
ghost use Rattle.spg_tree.specs.Table.{sheets_of};
ghost use Rattle.spg_scan.specs.Others.{ChangesPages};
ghost use Rattle.spg_seats.specs.Descending.{ChangesHeld};
ghost use Rattle.spg_core.specs.Stage.{free, IsInserting};
ghost use Rattle.spg_core.specs.Seen.{stage_at, past_of};
ghost use Rattle.spg_core.specs.Stepping.{IsNearLimit, Grows, MakesAtMostOne};
ghost use Rattle.spg_core.specs.Ends.{SeatEnds, SeatThenEnds};
ghost use Rattle.spg_core.specs.Waiting.{is_used};
ghost use Rattle.spg_core.specs.Looking.{LooksAt, StepsInsert, Asks, IsSpotted, IsBunch};
ghost use Rattle.spg_core.specs.Guides.{GuidedIn};
ghost use Rattle.spg_core.specs.Sections.{OpensInsert, IsInsertOut, TellsSection, LatchesAfter, OthersHold, IsHeavy, SeatFindsNoPage, SeatTicks};
ghost use Rattle.spg_core.specs.Runs.{opens_insert};
ghost use Rattle.spg_core.specs.Calls.{IsCall, Inserts, Looks};

use crate::answer::{InsertOut, OpenRefused};
use crate::found::{Found, is_bunch, is_spotted, look_at};
use crate::guide::Guide;
use crate::kept::{Kept, ROOM};
use crate::look::{ApplyRefused, Look};
use crate::operations::{end_insert, step_slot};
use crate::slot::{Slot, descent_at, set_slot};
use spg_base::{Memory, Row, Same, SeatNo};
use spg_descend::open_descent;
use spg_opclass::{Chosen, OpClass, Parted, Started};
use spg_rows::{Event, RowState};
use spg_tree::{StepRefused, Touched};

impl<O: OpClass> Kept<O> {
    pub(crate) fn may_claim(&self, row: Row) -> Result<(), OpenRefused>
        ensures ok { OnOk result (is_claimed row (past_of self.now) ≡ false) }
        ensures row_used { IsErrOf result OpenRefused.RowUsed ↔ IsUsed (past_of self.now) row }
        ensures row_held { (by : ℕ) → IsErrOf result (OpenRefused.RowHeld by) ↔ (held_by row (past_of self.now) ≡ Some by) }
    {
        if let Some(by) = self.held_by(row) {
            return Err(OpenRefused::RowHeld { by });
        }
        if is_used(self.rows.state(row)) {
            return Err(OpenRefused::RowUsed);
        }
        Ok(())
    }

    pub(crate) fn open_insert(
        &mut self,
        seat: SeatNo,
        row: Row,
        started: Started<O>,
    ) -> Result<(), OpenRefused>
        requires free { stage_at self.old seat ≡ free }
        ensures ok { OnOk result (OpensInsert O.meaning self.old self.new seat row started) }
        ensures call { OnOk result (IsCall O.meaning self.old self.new seat (opens_insert row started)) }
        ensures row_used { IsErrOf result OpenRefused.RowUsed ↔ IsUsed (past_of self.old) row }
        ensures row_held { (by : ℕ) → IsErrOf result (OpenRefused.RowHeld by) ↔ (held_by row (past_of self.old) ≡ Some by) }
        ensures err { OnErr result (self.new ≡ self.old) }
    {
        if let Some(by) = self.held_by(row) {
            return Err(OpenRefused::RowHeld { by });
        }
        if is_used(self.rows.state(row)) {
            return Err(OpenRefused::RowUsed);
        }
        let (key, descent) = open_descent(row, started);
        let told = copy_key::<O>(&key)?;
        let claimed = copy_key::<O>(&key)?;
        self.journal.reserve(ROOM)?;
        self.rows.claim(row, claimed)?;
        self.journal.append(Event::OpenInsert {
            seat,
            row,
            key: told,
        });
        set_slot(&mut self.slots, seat, Slot::Insert { key, descent });
        self.table.set_touched(Touched::new());
        Ok(())
    }

    /// The next section of an insert as its guide decides, of which `State::insert_step` tells.
    #[inline(always)]
    fn go_on(&mut self, seat: SeatNo, guide: Guide<'_, O>) -> Result<InsertOut, StepRefused>
        requires inserting { IsInserting (stage_at self.old seat) }
        requires guided { GuidedIn O.meaning self.old.table (stage_at self.old seat) guide }
        ensures ok { IfOk result (λ out. IsInsertOut self.old self.new seat out) }
        ensures call { IfOk result (λ out. Inserts O.meaning self.old self.new seat out) }
        ensures told { IfOk result (λ out. TellsSection O.meaning self.old self.new seat out) }
        ensures changes { IfOk result (λ _. ChangesPages O.meaning (past_of self.old) seat (sheets_of self.old.table) (sheets_of self.new.table) self.new.table.touched 0) }
        ensures latches { IfOk result (λ out. LatchesAfter self.new seat out) }
        ensures others { OthersHold self.old.table self.new.table seat }
        ensures within { ChangesHeld self.old.table self.new.table seat }
        ensures grows { Grows self.old.table self.new.table }
        ensures makes { IfOk result (λ _. MakesAtMostOne self.old.table self.new.table) }
        ensures ends { IfOk result (λ out. (n : ℕ) → SeatEnds O.meaning self.old seat (suc n) → SeatThenEnds O.meaning self.new seat n out) }
        ensures full { IsErrOf result StepRefused.IndexFull → IsHeavy O.meaning self.old seat × IsNearLimit self.old.table }
        ensures clock { IsErrOf result StepRefused.ClockFull → IsHeavy O.meaning self.old seat × (self.old.table.clock + 1 ≡ 2 ^ 48) }
        ensures full_where { IsErrOf result StepRefused.IndexFull → SeatFindsNoPage O.meaning self.old seat }
        ensures clock_where { IsErrOf result StepRefused.ClockFull → SeatTicks O.meaning self.old seat }
        ensures clock_first { SeatTicks O.meaning self.old seat → self.old.table.clock + 1 ≡ 2 ^ 48 → IsErrOf result StepRefused.ClockFull ⊎ IsErrOf result StepRefused.Memory }
        ensures no_page { SeatFindsNoPage O.meaning self.old seat → (SeatTicks O.meaning self.old seat → self.old.table.clock + 1 ≡ 2 ^ 48 → ⊥) → IsErrOf result StepRefused.IndexFull ⊎ IsErrOf result StepRefused.Memory }
        ensures err { OnErr result (self.new ≡ self.old) }
    {
        let out = step_slot(self.alloc, &mut self.table, &mut self.slots, seat, guide)?;
        if has_ended(&out) {
            let row = end_insert(&mut self.slots, seat);
            self.rows.put(row);
            self.journal.append(Event::Put { seat, row });
        }
        Ok(out)
    }

    #[inline(always)]
    pub(crate) fn insert_step(&mut self, class: &O, seat: SeatNo) -> Result<InsertOut, StepRefused>
        requires inserting { IsInserting (stage_at self.old seat) }
        ensures ok { IfOk result (λ out. IsInsertOut self.old self.new seat out) }
        ensures call { IfOk result (λ out. Inserts O.meaning self.old self.new seat out) }
        ensures told { IfOk result (λ out. TellsSection O.meaning self.old self.new seat out) }
        ensures changes { IfOk result (λ _. ChangesPages O.meaning (past_of self.old) seat (sheets_of self.old.table) (sheets_of self.new.table) self.new.table.touched 0) }
        ensures latches { IfOk result (λ out. LatchesAfter self.new seat out) }
        ensures others { OthersHold self.old.table self.new.table seat }
        ensures within { ChangesHeld self.old.table self.new.table seat }
        ensures grows { Grows self.old.table self.new.table }
        ensures makes { IfOk result (λ _. MakesAtMostOne self.old.table self.new.table) }
        ensures ends { IfOk result (λ out. (n : ℕ) → SeatEnds O.meaning self.old seat (suc n) → SeatThenEnds O.meaning self.new seat n out) }
        ensures full { IsErrOf result StepRefused.IndexFull → IsHeavy O.meaning self.old seat × IsNearLimit self.old.table }
        ensures clock { IsErrOf result StepRefused.ClockFull → IsHeavy O.meaning self.old seat × (self.old.table.clock + 1 ≡ 2 ^ 48) }
        ensures full_where { IsErrOf result StepRefused.IndexFull → SeatFindsNoPage O.meaning self.old seat }
        ensures clock_where { IsErrOf result StepRefused.ClockFull → SeatTicks O.meaning self.old seat }
        ensures clock_first { SeatTicks O.meaning self.old seat → self.old.table.clock + 1 ≡ 2 ^ 48 → IsErrOf result StepRefused.ClockFull ⊎ IsErrOf result StepRefused.Memory }
        ensures no_page { SeatFindsNoPage O.meaning self.old seat → (SeatTicks O.meaning self.old seat → self.old.table.clock + 1 ≡ 2 ^ 48 → ⊥) → IsErrOf result StepRefused.IndexFull ⊎ IsErrOf result StepRefused.Memory }
        ensures err { OnErr result (self.new ≡ self.old) }
    {
        self.go_on(seat, Guide::Class(class))
    }

    /// The next section of an insert as its guide decides, which is refused as what the class answered.
    fn apply(&mut self, seat: SeatNo, guide: Guide<'_, O>) -> Result<InsertOut, ApplyRefused>
        requires inserting { IsInserting (stage_at self.old seat) }
        requires guided { GuidedIn O.meaning self.old.table (stage_at self.old seat) guide }
        ensures ok { IfOk result (λ out. StepsInsert O.meaning self.old self.new seat out) }
        ensures call { IfOk result (λ out. Inserts O.meaning self.old self.new seat out) }
        ensures unchanged { IsErrOf result ApplyRefused.Changed → ⊥ }
        ensures others { OthersHold self.old.table self.new.table seat }
        ensures within { ChangesHeld self.old.table self.new.table seat }
        ensures grows { Grows self.old.table self.new.table }
        ensures full { IsErrOf result ApplyRefused.IndexFull → IsHeavy O.meaning self.old seat × IsNearLimit self.old.table }
        ensures clock { IsErrOf result ApplyRefused.ClockFull → IsHeavy O.meaning self.old seat × (self.old.table.clock + 1 ≡ 2 ^ 48) }
        ensures full_where { IsErrOf result ApplyRefused.IndexFull → SeatFindsNoPage O.meaning self.old seat }
        ensures clock_where { IsErrOf result ApplyRefused.ClockFull → SeatTicks O.meaning self.old seat }
        ensures clock_first { SeatTicks O.meaning self.old seat → self.old.table.clock + 1 ≡ 2 ^ 48 → IsErrOf result ApplyRefused.ClockFull ⊎ IsErrOf result ApplyRefused.Memory }
        ensures no_page { SeatFindsNoPage O.meaning self.old seat → (SeatTicks O.meaning self.old seat → self.old.table.clock + 1 ≡ 2 ^ 48 → ⊥) → IsErrOf result ApplyRefused.IndexFull ⊎ IsErrOf result ApplyRefused.Memory }
        ensures err { OnErr result (self.new ≡ self.old) }
    {
        match self.go_on(seat, guide) {
            Ok(out) => Ok(out),
            Err(StepRefused::IndexFull) => Err(ApplyRefused::IndexFull),
            Err(StepRefused::ClockFull) => Err(ApplyRefused::ClockFull),
            Err(StepRefused::Memory) => Err(ApplyRefused::Memory),
        }
    }

    pub(crate) fn insert_look(&mut self, seat: SeatNo) -> Result<Look<O>, StepRefused>
        requires inserting { IsInserting (stage_at self.old seat) }
        ensures ok { IfOk result (λ look. LooksAt O.meaning self.old self.new seat look) }
        ensures call { IfOk result (λ look. Looks O.meaning self.old self.new seat look) }
        ensures others { OthersHold self.old.table self.new.table seat }
        ensures within { ChangesHeld self.old.table self.new.table seat }
        ensures grows { Grows self.old.table self.new.table }
        ensures full { IsErrOf result StepRefused.IndexFull → IsHeavy O.meaning self.old seat × IsNearLimit self.old.table }
        ensures clock { IsErrOf result StepRefused.ClockFull → IsHeavy O.meaning self.old seat × (self.old.table.clock + 1 ≡ 2 ^ 48) }
        ensures full_where { IsErrOf result StepRefused.IndexFull → SeatFindsNoPage O.meaning self.old seat }
        ensures clock_where { IsErrOf result StepRefused.ClockFull → SeatTicks O.meaning self.old seat }
        ensures clock_first { (Asks self.old seat → ⊥) → SeatTicks O.meaning self.old seat → self.old.table.clock + 1 ≡ 2 ^ 48 → IsErrOf result StepRefused.ClockFull ⊎ IsErrOf result StepRefused.Memory }
        ensures no_page { (Asks self.old seat → ⊥) → SeatFindsNoPage O.meaning self.old seat → (SeatTicks O.meaning self.old seat → self.old.table.clock + 1 ≡ 2 ^ 48 → ⊥) → IsErrOf result StepRefused.IndexFull ⊎ IsErrOf result StepRefused.Memory }
        ensures full_asks { IsErrOf result StepRefused.IndexFull → Asks self.old seat → ⊥ }
        ensures clock_asks { IsErrOf result StepRefused.ClockFull → Asks self.old seat → ⊥ }
        ensures err { OnErr result (self.new ≡ self.old) }
    {
        let descent = descent_at(&self.slots, seat);
        match look_at(self.alloc, &self.table, descent)? {
            Found::Choose(spotted) => Ok(Look::Choose(spotted)),
            Found::Part(bunch) => Ok(Look::Part(bunch)),
            Found::Unasked => {
                let unasked: Option<Parted<O>> = None;
                let guide = Guide::Parted(unasked.as_ref());
                Ok(Look::Stepped(self.go_on(seat, guide)?))
            }
        }
    }

    pub(crate) fn insert_choose(
        &mut self,
        seat: SeatNo,
        chosen: &Chosen<O>,
    ) -> Result<InsertOut, ApplyRefused>
        requires inserting { IsInserting (stage_at self.old seat) }
        ensures ok { IfOk result (λ out. IsSpotted self.old seat chosen.now × StepsInsert O.meaning self.old self.new seat out) }
        ensures call { IfOk result (λ out. Inserts O.meaning self.old self.new seat out) }
        ensures changed { IsErrOf result ApplyRefused.Changed ↔ (IsSpotted self.old seat chosen.now → ⊥) }
        ensures others { OthersHold self.old.table self.new.table seat }
        ensures within { ChangesHeld self.old.table self.new.table seat }
        ensures grows { Grows self.old.table self.new.table }
        ensures full { IsErrOf result ApplyRefused.IndexFull → IsSpotted self.old seat chosen.now × IsHeavy O.meaning self.old seat × IsNearLimit self.old.table }
        ensures clock { IsErrOf result ApplyRefused.ClockFull → IsSpotted self.old seat chosen.now × IsHeavy O.meaning self.old seat × (self.old.table.clock + 1 ≡ 2 ^ 48) }
        ensures full_where { IsErrOf result ApplyRefused.IndexFull → SeatFindsNoPage O.meaning self.old seat }
        ensures clock_where { IsErrOf result ApplyRefused.ClockFull → SeatTicks O.meaning self.old seat }
        ensures clock_first { IsSpotted self.old seat chosen.now → SeatTicks O.meaning self.old seat → self.old.table.clock + 1 ≡ 2 ^ 48 → IsErrOf result ApplyRefused.ClockFull ⊎ IsErrOf result ApplyRefused.Memory }
        ensures no_page { IsSpotted self.old seat chosen.now → SeatFindsNoPage O.meaning self.old seat → (SeatTicks O.meaning self.old seat → self.old.table.clock + 1 ≡ 2 ^ 48 → ⊥) → IsErrOf result ApplyRefused.IndexFull ⊎ IsErrOf result ApplyRefused.Memory }
        ensures err { OnErr result (self.new ≡ self.old) }
    {
        let descent = descent_at(&self.slots, seat);
        if !is_spotted(&self.table, descent, chosen) {
            return Err(ApplyRefused::Changed);
        }
        self.apply(seat, Guide::Chosen(chosen))
    }

    pub(crate) fn insert_part(
        &mut self,
        seat: SeatNo,
        parted: &Parted<O>,
    ) -> Result<InsertOut, ApplyRefused>
        requires inserting { IsInserting (stage_at self.old seat) }
        ensures ok { IfOk result (λ out. IsBunch self.old seat parted.now × StepsInsert O.meaning self.old self.new seat out) }
        ensures call { IfOk result (λ out. Inserts O.meaning self.old self.new seat out) }
        ensures changed { IsErrOf result ApplyRefused.Changed ↔ (IsBunch self.old seat parted.now → ⊥) }
        ensures others { OthersHold self.old.table self.new.table seat }
        ensures within { ChangesHeld self.old.table self.new.table seat }
        ensures grows { Grows self.old.table self.new.table }
        ensures full { IsErrOf result ApplyRefused.IndexFull → IsBunch self.old seat parted.now × IsHeavy O.meaning self.old seat × IsNearLimit self.old.table }
        ensures clock { IsErrOf result ApplyRefused.ClockFull → IsBunch self.old seat parted.now × IsHeavy O.meaning self.old seat × (self.old.table.clock + 1 ≡ 2 ^ 48) }
        ensures full_where { IsErrOf result ApplyRefused.IndexFull → SeatFindsNoPage O.meaning self.old seat }
        ensures clock_where { IsErrOf result ApplyRefused.ClockFull → SeatTicks O.meaning self.old seat }
        ensures clock_first { IsBunch self.old seat parted.now → SeatTicks O.meaning self.old seat → self.old.table.clock + 1 ≡ 2 ^ 48 → IsErrOf result ApplyRefused.ClockFull ⊎ IsErrOf result ApplyRefused.Memory }
        ensures no_page { IsBunch self.old seat parted.now → SeatFindsNoPage O.meaning self.old seat → (SeatTicks O.meaning self.old seat → self.old.table.clock + 1 ≡ 2 ^ 48 → ⊥) → IsErrOf result ApplyRefused.IndexFull ⊎ IsErrOf result ApplyRefused.Memory }
        ensures err { OnErr result (self.new ≡ self.old) }
    {
        let descent = descent_at(&self.slots, seat);
        if !is_bunch(&self.table, descent, parted) {
            return Err(ApplyRefused::Changed);
        }
        self.apply(seat, Guide::Parted(Some(parted)))
    }
}

/// An equal key, or a null.
pub(crate) fn copy_key<O: OpClass>(key: &Option<O::Key>) -> Result<Option<O::Key>, Memory>
    ensures { IfOk result (λ copied. copied ≡ key.now) }
{
    match key {
        None => Ok(None),
        Some(key) => Ok(Some(key.copy()?)),
    }
}

/// Whether the row was put, so that the insert has ended.
fn has_ended(out: &InsertOut) -> bool
    ensures { IsTrue result ↔ (out.now ≡ InsertOut.Put) }
{
    matches!(out, InsertOut::Put)
}

/// Whether an insert of the row is open, or its entry is there.
fn is_used(state: RowState) -> bool
    ensures { result ≡ is_used state }
{
    match state {
        RowState::Claimed | RowState::Live | RowState::Killed { .. } => true,
        RowState::Free | RowState::Swept { .. } => false,
    }
}
