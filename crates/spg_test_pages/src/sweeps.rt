ghost use Rattle.std.specs.Prelude.{IfOk};
ghost use Rattle.spg_chain.specs.Chained.{IsLeafPage};

use crate::chains::leaf_of;
use spg_base::{Block, Memory, Offset, Place, Row, RowSet, Stamp};
use spg_chain::{add_to_chain, age_page, sweep_page, take_chain};
use spg_page::{Page, PageKind, TupleKind};
use std::alloc::Global;
use std::process::Abort;
use std::test::Fail;

/// A leaf page with a chain of the rows 1 and 2 of block 1.
fn chain_of_two(rt: &impl Abort, alloc: Global) -> Result<Page, Memory>
    ensures { IfOk result (λ page. IsLeafPage page.tuples) }
{
    let mut page = Page::new(alloc, PageKind::Leaf, false)?;
    let first = leaf_of(alloc, 1)?;
    let second = leaf_of(alloc, 2)?;
    let head = add_to_chain(&mut page, None, &first);
    assert!(rt; second.size() + 4 <= page.room(1));
    assert!(rt; head.0 <= page.count());
    assert!(rt; page.kind_at(head) == TupleKind::Leaf);
    add_to_chain(&mut page, Some(head), &second);
    Ok(page)
}

/// The set of the row 1 of block 1.
fn first_row(alloc: Global) -> Result<RowSet, Memory> {
    let mut rows = RowSet::new(alloc);
    rows.add(Row::at(1, 1))?;
    Ok(rows)
}

/// Whether the leaf of row 2 stands first of so many tuples.
fn has_second_first(page: &Page, count: u16) -> bool {
    page.count() == count
        && count > 0
        && page.kind_at(Offset(1)) == TupleKind::Leaf
        && page.row_at(Offset(1)).offset() == 2
}

#[test]
fn the_first_that_stays_moves_to_the_head(rt: HostRuntime) -> Result<(), Fail> {
    let mut page = chain_of_two(&rt, rt.alloc())?;
    let targets = first_row(rt.alloc())?;
    let swept = sweep_page(rt.alloc(), &mut page, false, &targets, Stamp::at(0))?;
    assert!(rt; swept.rows.len() == 1 && swept.found.is_empty());
    assert!(rt; has_second_first(&page, 2));
    assert!(rt; page.count() >= 2 && page.kind_at(Offset(2)) == TupleKind::Placeholder);
    Ok(())
}

#[test]
fn later_tuples_of_a_root_move_down(rt: HostRuntime) -> Result<(), Fail> {
    let mut page = chain_of_two(&rt, rt.alloc())?;
    let targets = first_row(rt.alloc())?;
    let swept = sweep_page(rt.alloc(), &mut page, true, &targets, Stamp::at(0))?;
    assert!(rt; swept.rows.len() == 1 && has_second_first(&page, 1));
    Ok(())
}

/// Whether the page frees so many tuples at that horizon, and then has so many.
fn ages(page: &mut Page, horizon: Stamp, freed: u16, count: u16) -> bool {
    age_page(page, horizon) == freed && page.count() == count
}

#[test]
fn an_old_redirect_ages(rt: HostRuntime) -> Result<(), Fail> {
    let alloc = rt.alloc();
    let mut page = Page::new(alloc, PageKind::Leaf, false)?;
    let leaf = leaf_of(alloc, 1)?;
    let head = add_to_chain(&mut page, None, &leaf);
    let to = Place {
        block: Block(9),
        offset: Offset(2),
    };
    take_chain(&mut page, head, to, Stamp::at(7));
    assert!(rt; ages(&mut page, Stamp::at(7), 0, 1));
    assert!(rt; ages(&mut page, Stamp::at(8), 1, 0));
    Ok(())
}
