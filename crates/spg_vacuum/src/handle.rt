ghost use Rattle.std.specs.Prelude.{◌≡◌, ◌<◌, ◌∷◌, [], true, false, length, IfOk, OnOk, OnErr};
ghost use Rattle.std.specs.BTreeSet.{contains};
ghost use Rattle.spg_base.specs.Row.{row_cmp};
ghost use Rattle.spg_forest.specs.Sheets.{with_tuples};
ghost use Rattle.spg_forest.specs.Shape.{Shape};
ghost use Rattle.spg_chain.specs.Chained.{IsLeafPage};
ghost use Rattle.spg_tree.specs.Table.{sheet_at, sheets_of, with_touched, with_sheet};
ghost use Rattle.spg_vacuum.specs.Listing.{with_listed};
ghost use Rattle.spg_vacuum.specs.Handled.{AreHandled, rows_at, IsHandled, HandlesBlock, found_at};

use crate::pending::Pending;
use spg_base::{Block, List, Memory, Place, Row, RowSet, Stamp};
use spg_chain::{Swept, age_page, needs_ageing, sweep_page};
use spg_opclass::OpClass;
use spg_page::{Page, PageKind};
use spg_tree::{PageTable, Touched};
use std::alloc::Global;

/// A page as it is once a vacuum has handled it.
#[derive(Drop)]
struct Handled {
    page: Page,
    /// The rows swept.
    rows: List<Row>,
    /// Where its redirects lead.
    found: List<Place>,
    /// Whether the page is another than before.
    changed: bool,
}

/// Handles a page: sweeps the targets of a leaf page, and ages redirects where it is no root's. It
/// tells what was swept and found. After a refusal the page is as before.
fn change_page(
    alloc: Global,
    page: &mut Page,
    root: bool,
    targets: &RowSet,
    since: Stamp,
    horizon: Stamp,
) -> Result<Swept, Memory>
    requires { root ≡ false → page.old.inner ≡ false → IsLeafPage page.old.tuples }
    ensures page { IfOk result (λ swept. page.new ≡ with_tuples page.old page.new.tuples) }
    ensures tuples { IfOk result (λ swept. AreHandled root page.old.inner (contains row_cmp targets.now.rows) horizon page.old.tuples page.new.tuples) }
    ensures rows { IfOk result (λ swept. swept.rows ≡ rows_at (contains row_cmp targets.now.rows) page.old) }
    ensures found { IfOk result (λ swept. swept.found ≡ found_at since page.old) }
{
    let swept = match page.kind() {
        PageKind::Leaf => sweep_page(alloc, page, root, targets, since)?,
        PageKind::Inner => Swept {
            rows: List::new(alloc),
            found: List::new(alloc),
        },
    };
    if !root {
        let _ = age_page(page, horizon);
    }
    Ok(swept)
}

/// A page as a vacuum handles it.
fn handled_page(
    alloc: Global,
    page: &Page,
    root: bool,
    targets: &RowSet,
    since: Stamp,
    horizon: Stamp,
) -> Result<Handled, Memory>
    requires { root ≡ false → page.now.inner ≡ false → IsLeafPage page.now.tuples }
    ensures { IfOk result (λ handled. IsHandled root (contains row_cmp targets.now.rows) since horizon page.now handled) }
{
    let mut work = Page::new(alloc, page.kind(), page.is_nulls())?;
    work.copy_from(page);
    let Swept { rows, found } = change_page(alloc, &mut work, root, targets, since, horizon)?;
    let changed = !rows.is_empty() || !root && needs_ageing(page, horizon);
    Ok(Handled {
        page: work,
        rows,
        found,
        changed,
    })
}

/// Puts a page in the place of a block's, where it is another.
fn put_page(table: &mut PageTable, block: Block, page: &Page, changed: bool)
    requires block { (0 < block) × (block < length table.old.pages) }
    ensures changed { changed ≡ true → table.new ≡ with_touched (with_sheet table.old block page.now) (block ∷ []) }
    ensures idle { changed ≡ false → table.new ≡ with_touched table.old [] }
{
    let mut touched = Touched::new();
    if changed {
        table.page_mut(block).copy_from(page);
        touched.push(block);
    }
    table.set_touched(touched);
}

/// Handles the page of a block, and lists what its redirects lead to. After a refusal table and list
/// are as before.
pub(crate) fn handle_block<O: OpClass>(
    alloc: Global,
    table: &mut PageTable,
    pending: &mut Pending,
    block: Block,
    targets: &RowSet,
    since: Stamp,
    horizon: Stamp,
) -> Result<List<Row>, Memory>
    requires shape { Shape O.meaning (sheets_of table.old) }
    requires block { (0 < block) × (block < length table.old.pages) }
    ensures ok { IfOk result (λ rows. HandlesBlock table.old table.new block (contains row_cmp targets.now.rows) horizon rows) }
    ensures list { OnOk result (pending.new ≡ with_listed pending.old (found_at since (sheet_at table.old block))) }
    ensures err { OnErr result (table.new ≡ table.old) }
    ensures err_list { OnErr result (pending.new ≡ pending.old) }
{
    let root = block.0 < 3;
    let handled = handled_page(alloc, table.page(block), root, targets, since, horizon)?;
    let Handled {
        page,
        rows,
        found,
        changed,
    } = handled;
    pending.list_all(found.as_slice())?;
    put_page(table, block, &page, changed);
    Ok(rows)
}
