//! Whether the rows of all leaves differ, by a sort.
ghost use Rattle.std.specs.Prelude.{◌≡◌, ◌<◌, ◌≤◌, ◌+◌, ℕ, length, true, IfOk, OnOk};
ghost use Rattle.std.specs.List.{IsDistinct};
ghost use Rattle.std.specs.List.Sorted.{IsStrictlySortedBy};
ghost use Rattle.spg_base.specs.Row.{row_cmp, same_row};
ghost use Rattle.spg_forest.specs.Pages.{place};
ghost use Rattle.spg_page.specs.Kinds.{IsOffset};
ghost use Rattle.spg_tree.specs.Table.{sheets_of, tuples_at};
ghost use Rattle.spg_clauses.specs.Clauses.{RowsAreNew};
ghost use Rattle.spg_survey.specs.Earlier.{among, IsNewAt, HasBefore};

use spg_base::{Block, Memory, Offset, Row};
use spg_page::TupleKind;
use spg_sort::sort_rows;
use spg_tree::PageTable;
use std::alloc::Global;
use std::cmp::Ordering;

/// The row of the tuple at a place joins those of the leaves before, where it is a leaf. It is new where
/// all differ then.
fn note_row(
    table: &PageTable,
    rows: &mut Vec<Row>,
    block: Block,
    offset: Offset,
) -> Result<(), Memory>
    requires block { block < length table.now.pages }
    requires offset { IsOffset (tuples_at table.now block) offset }
    requires rows { HasBefore (sheets_of table.now) (place block offset) (among rows.old.items) }
    ensures rows { OnOk result (HasBefore (sheets_of table.now) (place block (offset + 1)) (among rows.new.items)) }
    ensures apart { OnOk result (IsDistinct same_row rows.new.items → IsDistinct same_row rows.old.items) }
    ensures new { OnOk result (IsDistinct same_row rows.new.items → IsNewAt (sheets_of table.now) (place block offset)) }
{
    let page = table.page(block);
    match page.kind_at(offset) {
        TupleKind::Leaf => {
            rows.push(page.row_at(offset))?;
            Ok(())
        }
        _ => Ok(()),
    }
}

/// The rows of a block's leaves join those of the leaves before. They are new where all differ then.
fn note_rows(table: &PageTable, rows: &mut Vec<Row>, block: Block) -> Result<(), Memory>
    requires block { block < length table.now.pages }
    requires rows { HasBefore (sheets_of table.now) (place block 0) (among rows.old.items) }
    ensures rows { OnOk result (HasBefore (sheets_of table.now) (place (block + 1) 0) (among rows.new.items)) }
    ensures apart { OnOk result (IsDistinct same_row rows.new.items → IsDistinct same_row rows.old.items) }
    ensures new { OnOk result (IsDistinct same_row rows.new.items → RowsAreNew (sheets_of table.now) block) }
{
    let count = table.page(block).count();
    for index in 0..count {
        note_row(table, rows, block, Offset(index + 1))?;
    }
    Ok(())
}

/// The rows of all leaves. Each is new at its leaf where all differ.
fn rows_of(alloc: Global, table: &PageTable) -> Result<Vec<Row>, Memory>
    ensures { IfOk result (λ rows. IsDistinct same_row rows.items → (b : ℕ) → 1 ≤ b → b < length table.now.pages → RowsAreNew (sheets_of table.now) b) }
{
    let mut rows = Vec::new(alloc);
    for block in 1..table.page_count() {
        note_rows(table, &mut rows, Block(block))?;
    }
    Ok(rows)
}

/// Whether each row is below the next.
fn ascend(rows: &[Row]) -> bool
    ensures { result ≡ true → IsStrictlySortedBy row_cmp rows.now }
{
    for index in 1..rows.len() {
        match rows[index - 1].cmp(&rows[index]) {
            Ordering::Less => {}
            _ => return false,
        }
    }
    true
}

/// Whether the rows of all leaves differ.
pub(crate) fn rows_differ(alloc: Global, table: &PageTable) -> Result<bool, Memory>
    ensures { IfOk result (λ differ. differ ≡ true → (b : ℕ) → 1 ≤ b → b < length table.now.pages → RowsAreNew (sheets_of table.now) b) }
{
    let mut rows = rows_of(alloc, table)?;
    sort_rows(&mut rows);
    Ok(ascend(rows.as_slice()))
}
