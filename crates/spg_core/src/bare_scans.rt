ghost use Rattle.std.specs.Prelude.{◌≡◌, ◌<◌, ◌↔◌, IfOk, OnOk, OnErr, IsErrOf};
ghost use Rattle.spg_core.specs.Stage.{free, IsReading, IsRead, held_count};
ghost use Rattle.spg_core.specs.Seen.{stage_at};
ghost use Rattle.spg_core.specs.Looking.{CopiesItem, KeptIn, SiftsItem};
ghost use Rattle.spg_core.specs.Blocked.{IsItemFree};
ghost use Rattle.spg_core.specs.Sections.{OpensScan, ReadsItem, ClosesScan};
ghost use Rattle.spg_core.specs.Runs.{opens_scan, reads, copies, sifts, closes};
ghost use Rattle.spg_core.specs.Calls.{IsCall};

use crate::bare::Bare;
use spg_base::{Memory, SeatNo};
use spg_opclass::{OpClass, Query, Sifted};
use spg_scan::{Closed, ReadOut, ScanCopy, SiftRefused};

impl<O: OpClass> Bare<O> {
    /// Opens a scan. It holds the roots that the query begins at.
    pub fn open_scan(
        &mut self,
        seat: SeatNo,
        query: Query<O>,
        start: O::Recon,
    ) -> Result<(), Memory>
        requires free { stage_at self.old seat ≡ free }
        requires start { start ≡ O.meaning.start }
        ensures ok { OnOk result (OpensScan O.meaning self.old self.new seat query) }
        ensures call { OnOk result (IsCall O.meaning self.old self.new seat (opens_scan query)) }
        ensures err { OnErr result (self.new ≡ self.old) }
    {
        self.kept.open_scan(seat, query, start)
    }

    /// Reads a held item: what it leads to takes its place, and the live rows that the query asks for
    /// are taken. `Latched` exactly where another seat has latched the item's block, and the scan stays
    /// as it is; that wants no memory.
    pub(crate) fn scan_read(
        &mut self,
        class: &O,
        seat: SeatNo,
        item: usize,
    ) -> Result<ReadOut, Memory>
        requires held { item < held_count (stage_at self.old seat) }
        ensures ok { IfOk result (λ out. ReadsItem O.meaning self.old self.new seat item out) }
        ensures call { IfOk result (λ out. IsCall O.meaning self.old self.new seat (reads item out)) }
        ensures latched { OnErr result (IsItemFree self.old seat item) }
        ensures err { OnErr result (self.new ≡ self.old) }
    {
        self.kept.scan_read(class, seat, item)
    }

    /// Copies what a held item leads to, so that the class can sift it apart from the index: an inner
    /// tuple of the main tree, and where the query has conditions the live leaves of a chain or root
    /// leaf page of the main tree. The item is then being sifted, and its tuples are met. One that is
    /// being sifted gives its copy again. Any other is read. `Latched` exactly where another seat has
    /// latched the item's block, and the scan stays as it is; that wants no memory.
    pub fn scan_copy(&mut self, seat: SeatNo, item: usize) -> Result<ScanCopy<O>, Memory>
        requires held { item < held_count (stage_at self.old seat) }
        ensures ok { IfOk result (λ out. CopiesItem O.meaning self.old self.new seat item out) }
        ensures call { IfOk result (λ out. IsCall O.meaning self.old self.new seat (copies item out)) }
        ensures latched { OnErr result (IsItemFree self.old seat item) }
        ensures err { OnErr result (self.new ≡ self.old) }
    {
        self.kept.scan_copy(seat, item)
    }

    /// Takes in what the class answered for the copy of an item that is being sifted: the kept places
    /// take the place of an inner tuple, and the rows of leaves that match are taken. `Changed` comes
    /// first, exactly where the item is not there, is not being sifted, or has another copy.
    pub fn scan_sifted(
        &mut self,
        seat: SeatNo,
        item: usize,
        sifted: &Sifted<O>,
    ) -> Result<(), SiftRefused>
        requires reading { IsReading (stage_at self.old seat) }
        ensures ok { OnOk result (SiftsItem O.meaning self.old self.new seat item sifted.now) }
        ensures call { OnOk result (IsCall O.meaning self.old self.new seat (sifts item sifted.now)) }
        ensures changed { IsErrOf result SiftRefused.Changed ↔ (KeptIn (stage_at self.old seat) item sifted.now → ⊥) }
        ensures err { OnErr result (self.new ≡ self.old) }
    {
        self.kept.scan_sifted(seat, item, sifted)
    }

    /// Ends a scan that holds nothing, and gives its rows, ascending.
    pub fn close_scan(&mut self, seat: SeatNo) -> Result<Closed, Memory>
        requires read { IsRead (stage_at self.old seat) }
        ensures ok { IfOk result (λ closed. ClosesScan self.old self.new seat closed) }
        ensures call { IfOk result (λ closed. IsCall O.meaning self.old self.new seat (closes closed)) }
        ensures err { OnErr result (self.new ≡ self.old) }
    {
        self.kept.close_scan(seat)
    }
}
