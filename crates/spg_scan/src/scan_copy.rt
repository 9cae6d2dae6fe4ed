// A scan copies what it comes to.
ghost use Rattle.std.specs.Prelude.{◌≡◌, ◌<◌, ◌∷◌, [], length, IfOk, OnOk, OnErr, Some as Just};
ghost use Rattle.spg_forest.specs.Shape.{Shape};
ghost use Rattle.spg_tree.specs.Table.{sheets_of};
ghost use Rattle.spg_scan.specs.Held.{kept_as};
ghost use Rattle.spg_scan.specs.Scanning.{replaced};
ghost use Rattle.spg_scan.specs.Reading.{IsHeld, IsFreeFor};
ghost use Rattle.spg_scan.specs.Parts.{IsPlaceAt, HasPlace, IsMainAt, is_where};
ghost use Rattle.spg_scan.specs.Copying.{kept_copy, IsCopyOf, IsCopying, IsCopyOut, IsPlaceOut};

use crate::copying::{Copying, copy_chain, copy_inner, copy_page};
use crate::liveness::Liveness;
use crate::pending::{Pending, hand_out, recon_of};
use crate::scan::Scan;
use crate::scan_walk::held_by_other;
use crate::steps::starts_inner;
use spg_base::{Block, Memory, Offset, Place, SeatNo};
use spg_opclass::{Copied, OpClass, Query};
use spg_page::TupleKind;
use spg_rows::RowTable;
use spg_tree::PageTable;

/// What a copy of an item did.
#[derive(Drop)]
pub enum ScanCopy<O: OpClass> {
    /// It read the item, of which the class is not asked.
    Read,
    /// Another seat holds its block, and nothing changed.
    Latched { block: Block, by: SeatNo },
    /// The item is being sifted, and this is its copy.
    Sift(Copied<O>),
}

/// Whether a query has conditions.
fn is_where<O: OpClass>(query: &Query<O>) -> bool
    ensures { result ≡ is_where query.now }
{
    match query {
        Query::Where(_) => true,
        _ => false,
    }
}

impl<O: OpClass> Scan<O> {
    /// The copy of an item that is being sifted. None is a place.
    pub(crate) fn copy_of(&self, item: usize) -> Result<Option<Copied<O>>, Memory>
        requires { item < length self.now.items }
        ensures ok { IfOk result (λ copied. IsCopyOf self.now item copied) }
        ensures place { OnErr result (HasPlace self.now.items item → ⊥) }
    {
        let alloc = *self.rows.allocator();
        match &self.items[item] {
            Pending::Held(_) => Ok(None),
            Pending::Kept(kept) => Ok(Some(hand_out(alloc, &self.query, kept)?)),
        }
    }

    /// Keeps a copy in the place of an item, and hands out an equal one.
    fn keep(&mut self, item: usize, copying: Copying<O>) -> Result<Copied<O>, Memory>
        requires { item < length self.old.items }
        ensures ok { IfOk result (λ copied. kept_copy self.old.query (kept_as copying.kept) ≡ Just copied) }
        ensures after { OnOk result (self.new ≡ replaced self.old item (kept_as copying.kept ∷ []) [] copying.met) }
        ensures err { OnErr result (self.new ≡ self.old) }
    {
        let alloc = *self.rows.allocator();
        let copied = hand_out(alloc, &self.query, &copying.kept)?;
        self.items[item] = Pending::Kept(copying.kept);
        self.met = self.met.saturating_add(copying.met);
        Ok(copied)
    }

    /// The copy of a root of the main tree, where it is to be copied.
    fn copy_root(
        &self,
        table: &PageTable,
        rows: &RowTable<O>,
        item: usize,
        place: Place,
        recon: &O::Recon,
    ) -> Result<Option<Copying<O>>, Memory>
        requires shape { Shape O.meaning (sheets_of table.now) }
        requires held { IsHeld O.meaning (sheets_of table.now) self.now item }
        requires place { IsPlaceAt self.now.items item place }
        requires recon { IsMainAt self.now.items item recon.now }
        requires root { place.offset ≡ 0 }
        ensures { IfOk result (λ copying. IsCopying (sheets_of table.now) rows.now self.now item copying) }
    {
        let alloc = *self.rows.allocator();
        let page = table.page(place.block);
        if starts_inner(page) {
            Ok(Some(copy_inner(alloc, recon, page, Offset(1))?))
        } else if is_where(&self.query) {
            Ok(Some(copy_page(alloc, recon, rows, page)?))
        } else {
            Ok(None)
        }
    }

    /// The copy of a tuple of the main tree at a place that is no root, where it is to be copied.
    fn copy_tuple(
        &self,
        table: &PageTable,
        rows: &RowTable<O>,
        item: usize,
        place: Place,
        recon: &O::Recon,
    ) -> Result<Option<Copying<O>>, Memory>
        requires shape { Shape O.meaning (sheets_of table.now) }
        requires held { IsHeld O.meaning (sheets_of table.now) self.now item }
        requires place { IsPlaceAt self.now.items item place }
        requires recon { IsMainAt self.now.items item recon.now }
        requires high { 0 < place.offset }
        ensures { IfOk result (λ copying. IsCopying (sheets_of table.now) rows.now self.now item copying) }
    {
        let alloc = *self.rows.allocator();
        let page = table.page(place.block);
        let at = place.offset;
        match page.kind_at(at) {
            TupleKind::Inner => Ok(Some(copy_inner(alloc, recon, page, at)?)),
            TupleKind::Leaf => {
                if is_where(&self.query) {
                    Ok(Some(copy_chain(alloc, recon, rows, page, at)?))
                } else {
                    Ok(None)
                }
            }
            TupleKind::Dead => Ok(None),
            TupleKind::Redirect => Ok(None),
            TupleKind::Placeholder => unreachable!(),
        }
    }

    /// The copy of what stands at an item's place, where it is to be copied.
    fn copy_place(
        &self,
        table: &PageTable,
        rows: &RowTable<O>,
        item: usize,
        place: Place,
    ) -> Result<Option<Copying<O>>, Memory>
        requires shape { Shape O.meaning (sheets_of table.now) }
        requires item { item < length self.now.items }
        requires held { IsHeld O.meaning (sheets_of table.now) self.now item }
        requires place { IsPlaceAt self.now.items item place }
        ensures { IfOk result (λ copying. IsCopying (sheets_of table.now) rows.now self.now item copying) }
    {
        match recon_of(&self.items[item]) {
            None => Ok(None),
            Some(recon) => {
                if place.offset.0 == 0 {
                    self.copy_root(table, rows, item, place, recon)
                } else {
                    self.copy_tuple(table, rows, item, place, recon)
                }
            }
        }
    }

    /// Copies or reads an item whose block no other seat holds.
    fn copy_at(
        &mut self,
        table: &PageTable,
        rows: &RowTable<O>,
        item: usize,
        place: Place,
    ) -> Result<ScanCopy<O>, Memory>
        requires shape { Shape O.meaning (sheets_of table.now) }
        requires item { item < length self.old.items }
        requires held { IsHeld O.meaning (sheets_of table.now) self.old item }
        requires place { IsPlaceAt self.old.items item place }
        ensures ok { IfOk result (λ out. IsPlaceOut O.meaning (sheets_of table.now) rows.now self.old self.new item out) }
        ensures err { OnErr result (self.new ≡ self.old) }
    {
        let alloc = *self.rows.allocator();
        match self.copy_place(table, rows, item, place)? {
            Some(copying) => Ok(ScanCopy::Sift(self.keep(item, copying)?)),
            None => {
                self.read_at(alloc, None, table, &Liveness::of(rows), item, place)?;
                Ok(ScanCopy::Read)
            }
        }
    }

    /// Copies or reads an item that is a place.
    fn copy_held(
        &mut self,
        table: &PageTable,
        rows: &RowTable<O>,
        item: usize,
        seat: SeatNo,
    ) -> Result<ScanCopy<O>, Memory>
        requires shape { Shape O.meaning (sheets_of table.now) }
        requires item { item < length self.old.items }
        requires held { IsHeld O.meaning (sheets_of table.now) self.old item }
        requires place { HasPlace self.old.items item }
        ensures ok { IfOk result (λ out. IsCopyOut O.meaning table.now rows.now self.old self.new item seat out) }
        ensures latched { OnErr result (IsFreeFor table.now self.old item seat) }
        ensures err { OnErr result (self.new ≡ self.old) }
    {
        let place = self.place_at(item);
        let block = place.block;
        match held_by_other(table, block, seat) {
            Some(by) => Ok(ScanCopy::Latched { block, by }),
            None => self.copy_at(table, rows, item, place),
        }
    }

    /// Copies what an item leads to, so that the class can sift it apart from the index: an inner
    /// tuple of the main tree, and where the query has conditions a chain or root leaf page of the
    /// main tree, of which the live leaves are copied. The item is then being sifted, and its tuples
    /// are met. One that is being sifted gives its copy again. Any other is read. `Latched` comes
    /// exactly where another seat holds the block of the item's place, and wants no memory. After
    /// `Memory` nothing has changed.
    pub fn copy_item(
        &mut self,
        table: &PageTable,
        rows: &RowTable<O>,
        item: usize,
        seat: SeatNo,
    ) -> Result<ScanCopy<O>, Memory>
        requires shape { Shape O.meaning (sheets_of table.now) }
        requires item { item < length self.old.items }
        requires held { IsHeld O.meaning (sheets_of table.now) self.old item }
        ensures ok { IfOk result (λ out. IsCopyOut O.meaning table.now rows.now self.old self.new item seat out) }
        ensures latched { OnErr result (IsFreeFor table.now self.old item seat) }
        ensures err { OnErr result (self.new ≡ self.old) }
    {
        match self.copy_of(item)? {
            Some(copied) => Ok(ScanCopy::Sift(copied)),
            None => self.copy_held(table, rows, item, seat),
        }
    }
}
