// Copies of what stands at a place.
ghost use Rattle.std.specs.Prelude.{◌≡◌, ◌<◌, ◌++◌, ◌∷◌, [], length, Some as Just, IfOk, OnOk};
ghost use Rattle.spg_forest.specs.Pages.{tuple_on};
ghost use Rattle.spg_forest.specs.Links.{leaves_on};
ghost use Rattle.spg_forest.specs.Sheets.{links};
ghost use Rattle.spg_page.specs.Kinds.{IsOffset, IsInner};
ghost use Rattle.spg_page.specs.Reads.{frame_in};
ghost use Rattle.spg_chain.specs.Chains.{chain_members, leaves_of};
ghost use Rattle.spg_opclass.specs.Copies.{AreKeys};
ghost use Rattle.spg_scan.specs.Held.{kept_as, leaves_with};
ghost use Rattle.spg_scan.specs.Items.{inner, leaves, rows_of};
ghost use Rattle.spg_scan.specs.Scanning.{CanFollow};
ghost use Rattle.spg_scan.specs.Reading.{live_leaves};
ghost use Rattle.spg_scan.specs.Copying.{rests_of};
ghost use Rattle.spg_scan.specs.Parts.{HaveKeys, AreLive};

use crate::liveness::is_live;
use crate::pending::Kept;
use spg_base::{Bytes, List, Memory, Offset, Place, Row, Rows, Same};
use spg_chain::walk_chain;
use spg_opclass::{InnerCopy, LeavesCopy, OpClass};
use spg_page::Page;
use spg_rows::RowTable;
use std::alloc::Global;

/// A copy, and how many tuples were met with it.
#[derive(Drop)]
pub(crate) struct Copying<O: OpClass> {
    pub(crate) kept: Kept<O>,
    pub(crate) met: u64,
}

/// The live leaves among those that were met, and how many these are.
#[derive(Drop)]
struct Live {
    rows: Rows,
    rests: List<Bytes>,
    met: u64,
}

/// The downlinks of the inner tuple at an offset.
fn links_of(alloc: Global, page: &Page, offset: Offset) -> Result<List<Option<Place>>, Memory>
    requires offset { IsOffset page.now.tuples offset }
    requires inner { IsInner (tuple_on page.now.tuples offset) }
    ensures { IfOk result (λ copied. copied ≡ links (tuple_on page.now.tuples offset)) }
{
    let mut copied = List::new(alloc);
    for node in 0..page.node_count_at(offset) {
        copied.push(page.link_at(offset, node))?;
    }
    Ok(copied)
}

/// A copy of the inner tuple at an offset, where this is the rebuilt value.
pub(crate) fn copy_inner<O: OpClass>(
    alloc: Global,
    recon: &O::Recon,
    page: &Page,
    offset: Offset,
) -> Result<Copying<O>, Memory>
    requires offset { IsOffset page.now.tuples offset }
    requires inner { IsInner (tuple_on page.now.tuples offset) }
    requires known { CanFollow O.meaning (Just recon.now) (frame_in (tuple_on page.now.tuples offset)) (links (tuple_on page.now.tuples offset)) }
    ensures kept { IfOk result (λ copying. kept_as copying.kept ≡ inner (Just recon.now) (frame_in (tuple_on page.now.tuples offset)) (links (tuple_on page.now.tuples offset))) }
    ensures met { IfOk result (λ copying. copying.met ≡ 1) }
{
    let tuple = page.view_at(alloc, offset)?;
    let links = links_of(alloc, page, offset)?;
    let kept = Kept::Inner(InnerCopy::new(recon.copy()?, tuple, links));
    Ok(Copying { kept, met: 1 })
}

/// Copies a leaf where its row is live.
fn copy_leaf<O: OpClass>(
    alloc: Global,
    table: &RowTable<O>,
    row: Row,
    rest: &[u8],
    rows: &mut Rows,
    rests: &mut List<Bytes>,
) -> Result<(), Memory>
    ensures rows { OnOk result (rows.new ≡ rows.old ++ rows_of (live_leaves table.now (record { row = row; rest = rest.now } ∷ []))) }
    ensures rests { OnOk result (rests.new ≡ rests.old ++ rests_of (live_leaves table.now (record { row = row; rest = rest.now } ∷ []))) }
{
    if is_live(table.state(row)) {
        rows.push(row)?;
        rests.push(Bytes::copy(alloc, rest)?)?;
    }
    Ok(())
}

/// The live leaves of the chain at a head.
fn live_chain<O: OpClass>(
    alloc: Global,
    table: &RowTable<O>,
    page: &Page,
    head: Offset,
) -> Result<Live, Memory>
    ensures rows { IfOk result (λ live. live.rows ≡ rows_of (live_leaves table.now (leaves_of (chain_members page.now.tuples head)))) }
    ensures rests { IfOk result (λ live. live.rests ≡ rests_of (live_leaves table.now (leaves_of (chain_members page.now.tuples head)))) }
    ensures met { IfOk result (λ live. live.met ≡ length (leaves_of (chain_members page.now.tuples head))) }
{
    let mut rows = Rows::new(alloc);
    let mut rests = List::new(alloc);
    let mut met = 0;
    for leaf in walk_chain(page, head) {
        copy_leaf(alloc, table, leaf.row, leaf.rest, &mut rows, &mut rests)?;
        met += 1;
    }
    Ok(Live { rows, rests, met })
}

/// The live leaves of a root leaf page.
fn live_page<O: OpClass>(alloc: Global, table: &RowTable<O>, page: &Page) -> Result<Live, Memory>
    requires { AreLive page.now.tuples }
    ensures rows { IfOk result (λ live. live.rows ≡ rows_of (live_leaves table.now (leaves_on page.now.tuples))) }
    ensures rests { IfOk result (λ live. live.rests ≡ rests_of (live_leaves table.now (leaves_on page.now.tuples))) }
    ensures met { IfOk result (λ live. live.met ≡ length (leaves_on page.now.tuples)) }
{
    let mut rows = Rows::new(alloc);
    let mut rests = List::new(alloc);
    for index in 0..page.count() {
        let at = Offset(index + 1);
        copy_leaf(
            alloc,
            table,
            page.row_at(at),
            page.rest_at(at),
            &mut rows,
            &mut rests,
        )?;
    }
    let met = u64::from(page.count());
    Ok(Live { rows, rests, met })
}

/// The copy of live leaves, where this is the rebuilt value.
fn keep_leaves<O: OpClass>(recon: &O::Recon, live: Live) -> Result<Copying<O>, Memory>
    requires keys { AreKeys O.meaning recon.now live.rests }
    requires each { length live.rests ≡ length live.rows }
    ensures kept { IfOk result (λ copying. kept_as copying.kept ≡ leaves (Just recon.now) (leaves_with live.rows live.rests)) }
    ensures met { IfOk result (λ copying. copying.met ≡ live.met) }
{
    let kept = Kept::Leaves(LeavesCopy::new(recon.copy()?, live.rows, live.rests));
    Ok(Copying {
        kept,
        met: live.met,
    })
}

/// A copy of the chain at a head.
pub(crate) fn copy_chain<O: OpClass>(
    alloc: Global,
    recon: &O::Recon,
    table: &RowTable<O>,
    page: &Page,
    head: Offset,
) -> Result<Copying<O>, Memory>
    requires { HaveKeys O.meaning (Just recon.now) (leaves_of (chain_members page.now.tuples head)) }
    ensures kept { IfOk result (λ copying. kept_as copying.kept ≡ leaves (Just recon.now) (live_leaves table.now (leaves_of (chain_members page.now.tuples head)))) }
    ensures met { IfOk result (λ copying. copying.met ≡ length (leaves_of (chain_members page.now.tuples head))) }
{
    let live = live_chain(alloc, table, page, head)?;
    keep_leaves(recon, live)
}

/// A copy of a root leaf page.
pub(crate) fn copy_page<O: OpClass>(
    alloc: Global,
    recon: &O::Recon,
    table: &RowTable<O>,
    page: &Page,
) -> Result<Copying<O>, Memory>
    requires live { AreLive page.now.tuples }
    requires keys { HaveKeys O.meaning (Just recon.now) (leaves_on page.now.tuples) }
    ensures kept { IfOk result (λ copying. kept_as copying.kept ≡ leaves (Just recon.now) (live_leaves table.now (leaves_on page.now.tuples))) }
    ensures met { IfOk result (λ copying. copying.met ≡ length (leaves_on page.now.tuples)) }
{
    let live = live_page(alloc, table, page)?;
    keep_leaves(recon, live)
}
