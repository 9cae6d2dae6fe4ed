ghost use Rattle.std.specs.Prelude.{◌≡◌, IsTrue, Option, None as Nil, true, false, IfOk, OnOk};
ghost use Rattle.spg_forest.specs.Pages.{IsFresh};
ghost use Rattle.spg_forest.specs.Shape.{Shape, spots};
ghost use Rattle.spg_forest.specs.Sheets.{blank};
ghost use Rattle.spg_tree.specs.Table.{sheets_of};
ghost use Rattle.spg_tree.specs.Descents.{in_nulls};
ghost use Rattle.spg_descend.specs.Carried.{IsCarried};
ghost use Rattle.spg_descend.specs.Enters.{opened_for};
ghost use Rattle.spg_descend.specs.Follows.{IsAtInner};
ghost use Rattle.spg_seats.specs.Descending.{Stands};
ghost use Rattle.spg_core.specs.Stage.{free};
ghost use Rattle.spg_core.specs.Seen.{stage_at};

use spg_base::{Block, Bytes, List, Memory, Row, SeatNo, Stamp};
use spg_core::State;
use spg_descend::{Entered, Rule, enter_root, follow, open_descent, rule_at};
use spg_move::move_chain;
use spg_opclass::{OpClass, start_at};
use spg_page::{Page, PageKind};
use spg_tree::{Descent, PageTable, StepRefused};
use std::alloc::Global;

/// Copies of the pages of a table.
pub(crate) fn copied(alloc: Global, table: &PageTable) -> Result<List<Page>, Memory>
    ensures { IfOk result (λ pages. pages ≡ table.now.pages) }
{
    let mut pages = List::new(alloc);
    for block in 0..table.page_count() {
        let mut page = Page::new(alloc, PageKind::Leaf, false)?;
        page.copy_from(table.page(Block(block)));
        pages.push(page)?;
    }
    Ok(pages)
}

/// Whether a page may stand for the meta page.
fn is_meta(page: &Page) -> bool
    ensures { IsTrue result → page.now ≡ blank false }
{
    page.kind() == PageKind::Leaf && !page.is_nulls() && page.count() == 0
}

/// A table with the pages of another, at this limit and moment.
fn at_moment<O: OpClass>(
    alloc: Global,
    table: &PageTable,
    limit: u32,
    clock: Stamp,
) -> Result<PageTable, Memory>
    requires shape { Shape O.meaning (sheets_of table.now) }
    ensures shape { IfOk result (λ made. Shape O.meaning (sheets_of made)) }
    ensures pages { IfOk result (λ made. made.pages ≡ table.now.pages) }
{
    let count = table.page_count();
    if limit < 4 || limit > 131072 || limit < count {
        return Err(Memory);
    }
    if !is_meta(table.page(Block(0))) {
        return Err(Memory);
    }
    if clock.moment() < table.clock() {
        return Err(Memory);
    }
    let pages = copied(alloc, table)?;
    let made = PageTable::with_pages(alloc, pages, limit, clock)?;
    Ok(made)
}

/// The pages of an index at this limit and moment, and a row that is not on them.
pub(crate) fn parted<O: OpClass>(
    alloc: Global,
    state: &mut State<O>,
    row: Row,
    limit: u32,
    clock: Stamp,
) -> Result<PageTable, Memory>
    requires { stage_at state.old 0 ≡ free }
    ensures shape { IfOk result (λ made. Shape O.meaning (sheets_of made)) }
    ensures fresh { IfOk result (λ made. IsFresh (spots (sheets_of made)) row) }
{
    let made = at_moment::<O>(alloc, state.pages(), limit, clock)?;
    match state.open_insert(SeatNo::first(), row, None) {
        // The journal that has the insert is legal, so the row was not claimed.
        Ok(()) => {
            let _journal = state.journal();
            Ok(made)
        }
        Err(_) => Err(Memory),
    }
}

/// An insert that stands at the root of its tree.
pub(crate) fn at_root<O: OpClass>(
    alloc: Global,
    class: &O,
    table: &mut PageTable,
    row: Row,
    key: Option<O::Key>,
) -> Result<Descent<O>, Memory>
    requires shape { Shape O.meaning (sheets_of table.old) }
    requires fresh { IsFresh (spots (sheets_of table.old)) row }
    ensures shape { OnOk result (Shape O.meaning (sheets_of table.new)) }
    ensures stands { IfOk result (λ d. Stands table.new d) }
    ensures carries { IfOk result (λ d. IsCarried O.meaning (sheets_of table.new) d key) }
    ensures opened { IfOk result (λ d. (in_nulls d ≡ in_nulls (opened_for O.meaning row key)) × (d.recon ≡ (opened_for O.meaning row key).recon)) }
{
    let started = start_at(alloc, class, key)?;
    let (_, mut descent) = open_descent(row, started);
    match enter_root(table, &mut descent, SeatNo::first()) {
        Entered::In => Ok(descent),
        Entered::Busy { .. } => Err(Memory),
    }
}

/// Whether an insert stands at an inner tuple.
pub(crate) fn is_at_inner<O: OpClass>(table: &PageTable, descent: &Descent<O>) -> bool
    requires shape { Shape O.meaning (sheets_of table.now) }
    requires stands { Stands table.now descent.now }
    requires of_key { (key : Option O.Key) × IsCarried O.meaning (sheets_of table.now) descent.now key }
    ensures { IsTrue result → IsAtInner table.now descent.now.stand }
{
    matches!(rule_at(table, descent), Rule::Choose)
}

/// Goes down the first node of the inner tuple at which an insert of a null stands.
fn go_down<O: OpClass>(
    alloc: Global,
    table: &mut PageTable,
    descent: &mut Descent<O>,
) -> Result<(), Memory>
    requires shape { Shape O.meaning (sheets_of table.old) }
    requires stands { Stands table.old descent.old }
    requires carries { IsCarried O.meaning (sheets_of table.old) descent.old Nil }
    requires nulls { (in_nulls descent.old ≡ true) × (descent.old.recon ≡ Nil) }
    ensures shape { OnOk result (Shape O.meaning (sheets_of table.new)) }
    ensures stands { OnOk result (Stands table.new descent.new) }
    ensures carries { OnOk result (IsCarried O.meaning (sheets_of table.new) descent.new Nil) }
{
    if !is_at_inner(table, descent) {
        return Err(Memory);
    }
    match follow(table, descent, SeatNo::first(), 0, Bytes::new(alloc), None) {
        Entered::In => Ok(()),
        Entered::Busy { .. } => Err(Memory),
    }
}

/// An insert of a null that stands at what the first node of the nulls tree leads to.
pub(crate) fn at_chain<O: OpClass>(
    alloc: Global,
    class: &O,
    table: &mut PageTable,
    row: Row,
) -> Result<Descent<O>, Memory>
    requires shape { Shape O.meaning (sheets_of table.old) }
    requires fresh { IsFresh (spots (sheets_of table.old)) row }
    ensures shape { OnOk result (Shape O.meaning (sheets_of table.new)) }
    ensures stands { IfOk result (λ d. Stands table.new d) }
    ensures carries { IfOk result (λ d. IsCarried O.meaning (sheets_of table.new) d Nil) }
{
    let mut descent = at_root(alloc, class, table, row, None)?;
    go_down(alloc, table, &mut descent)?;
    Ok(descent)
}

/// Moves the chain at which an insert stands. None where no chain is to be moved there.
pub(crate) fn moved<O: OpClass>(
    alloc: Global,
    table: &mut PageTable,
    descent: &Descent<O>,
) -> Option<Result<(), StepRefused>>
    requires shape { Shape O.meaning (sheets_of table.old) }
    requires stands { Stands table.old descent.now }
    requires carries { IsCarried O.meaning (sheets_of table.old) descent.now Nil }
{
    match rule_at(table, descent) {
        Rule::Move => Some(move_chain(alloc, table, descent, SeatNo::first())),
        _ => None,
    }
}
