ghost use Rattle.std.specs.Prelude.{◌≡◌, ◌<◌, ◌↔◌, IfOk, OnOk, OnErr, IsErrOf};
ghost use Rattle.spg_core.specs.Stage.{free, IsReading, IsRead, held_count};
ghost use Rattle.spg_core.specs.Seen.{stage_at};
ghost use Rattle.spg_core.specs.Looking.{CopiesItem, KeptIn, SiftsItem};
ghost use Rattle.spg_core.specs.Blocked.{IsItemFree};
ghost use Rattle.spg_core.specs.Sections.{OpensScan, ReadsItem, ClosesScan};
ghost use Rattle.spg_core.specs.Runs.{opens_scan, reads, copies, sifts, closes};
ghost use Rattle.spg_core.specs.Calls.{IsCall};

use crate::kept::{Kept, ROOM};
use crate::operations::{close_slot, read_slot};
use crate::sifting::{copy_slot, sift_slot};
use crate::slot::{Slot, set_slot};
use crate::sweeping::are_empty;
use spg_base::{Memory, SeatNo, Stamp};
use spg_opclass::{OpClass, Query, Sifted};
use spg_rows::Event;
use spg_scan::{Closed, Liveness, ReadOut, Scan, ScanCopy, SiftRefused};
use spg_tree::Touched;

impl<O: OpClass> Kept<O> {
    pub(crate) fn open_scan(
        &mut self,
        seat: SeatNo,
        query: Query<O>,
        start: O::Recon,
    ) -> Result<(), Memory>
        requires free { stage_at self.old seat ≡ free }
        requires start { start ≡ O.meaning.start }
        ensures ok { OnOk result (OpensScan O.meaning self.old self.new seat query) }
        ensures call { OnOk result (IsCall O.meaning self.old self.new seat (opens_scan query)) }
        ensures err { OnErr result (self.new ≡ self.old) }
    {
        let told = query.copy()?;
        let stamp = Stamp::at(self.table.clock());
        let scan = Scan::open(self.alloc, query, start, self.journal.len(), stamp)?;
        self.journal.reserve(ROOM)?;
        self.journal.append(Event::OpenScan { seat, query: told });
        set_slot(&mut self.slots, seat, Slot::Scan(scan));
        self.table.set_touched(Touched::new());
        Ok(())
    }

    pub(crate) fn scan_read(
        &mut self,
        class: &O,
        seat: SeatNo,
        item: usize,
    ) -> Result<ReadOut, Memory>
        requires held { item < held_count (stage_at self.old seat) }
        ensures ok { IfOk result (λ out. ReadsItem O.meaning self.old self.new seat item out) }
        ensures call { IfOk result (λ out. IsCall O.meaning self.old self.new seat (reads item out)) }
        ensures latched { OnErr result (IsItemFree self.old seat item) }
        ensures err { OnErr result (self.new ≡ self.old) }
    {
        let liveness = Liveness {
            table: &self.rows,
            all_live: are_empty(&self.targets, &self.later),
        };
        let out = read_slot(
            self.alloc,
            class,
            &self.table,
            &liveness,
            &mut self.slots,
            seat,
            item,
        )?;
        self.table.set_touched(Touched::new());
        Ok(out)
    }

    pub(crate) fn scan_copy(&mut self, seat: SeatNo, item: usize) -> Result<ScanCopy<O>, Memory>
        requires held { item < held_count (stage_at self.old seat) }
        ensures ok { IfOk result (λ out. CopiesItem O.meaning self.old self.new seat item out) }
        ensures call { IfOk result (λ out. IsCall O.meaning self.old self.new seat (copies item out)) }
        ensures latched { OnErr result (IsItemFree self.old seat item) }
        ensures err { OnErr result (self.new ≡ self.old) }
    {
        let out = copy_slot(&self.table, &self.rows, &mut self.slots, seat, item)?;
        self.table.set_touched(Touched::new());
        Ok(out)
    }

    pub(crate) fn scan_sifted(
        &mut self,
        seat: SeatNo,
        item: usize,
        sifted: &Sifted<O>,
    ) -> Result<(), SiftRefused>
        requires reading { IsReading (stage_at self.old seat) }
        ensures ok { OnOk result (SiftsItem O.meaning self.old self.new seat item sifted.now) }
        ensures call { OnOk result (IsCall O.meaning self.old self.new seat (sifts item sifted.now)) }
        ensures changed { IsErrOf result SiftRefused.Changed ↔ (KeptIn (stage_at self.old seat) item sifted.now → ⊥) }
        ensures err { OnErr result (self.new ≡ self.old) }
    {
        sift_slot(&mut self.slots, seat, item, sifted)?;
        self.table.set_touched(Touched::new());
        Ok(())
    }

    pub(crate) fn close_scan(&mut self, seat: SeatNo) -> Result<Closed, Memory>
        requires read { IsRead (stage_at self.old seat) }
        ensures ok { IfOk result (λ closed. ClosesScan self.old self.new seat closed) }
        ensures call { IfOk result (λ closed. IsCall O.meaning self.old self.new seat (closes closed)) }
        ensures err { OnErr result (self.new ≡ self.old) }
    {
        let (told, closed) = close_slot(self.alloc, &mut self.slots, seat)?;
        self.journal.append(Event::CloseScan { seat, rows: told });
        set_slot(&mut self.slots, seat, Slot::Free);
        self.table.set_touched(Touched::new());
        Ok(closed)
    }
}
