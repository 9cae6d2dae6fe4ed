ghost use Rattle.std.specs.Prelude.{◌≡◌, ◌≤◌, IfOk, true};
ghost use Rattle.spg_forest.specs.Tuples.{Live};
ghost use Rattle.spg_page.specs.Reads.{leaf_in};
ghost use Rattle.spg_chain.specs.Added.{IsLeafIn};

use spg_base::{Block, Bytes, Memory, Offset, Place, Row, Stamp};
use spg_chain::{add_to_chain, chain_size, read_chain, take_chain, walk_chain};
use spg_page::{LeafTuple, Page, PageKind, Tuple, TupleBytes, TupleKind};
use std::alloc::Global;
use std::process::Abort;
use std::test::Fail;

/// The leaf tuple of a row of block 1, with a rest of eight bytes.
pub(crate) fn leaf_of(alloc: Global, offset: u16) -> Result<TupleBytes, Memory>
    ensures { IfOk result (λ leaf. leaf ≡ Live (leaf_in leaf) 0) }
{
    let rest = Bytes::copy(alloc, [3, 0, 0, 0, 4, 0, 0, 0].as_slice())?;
    let Some(row) = Row::new(1, offset) else {
        return Err(Memory);
    };
    TupleBytes::of(
        alloc,
        &Tuple::Leaf(LeafTuple {
            row,
            next: None,
            rest,
        }),
    )
}

/// Whether a leaf stands at the offset.
fn is_leaf_at(page: &Page, offset: Offset) -> bool
    ensures { result ≡ true → IsLeafIn page.now.tuples (Some offset) }
{
    offset.0 != 0 && offset.0 <= page.count() && page.kind_at(offset) == TupleKind::Leaf
}

/// Adds a leaf behind the first offset, and says whether it went to that offset.
fn adds_behind(page: &mut Page, leaf: &TupleBytes, to: u16) -> bool
    requires { leaf.now ≡ Live (leaf_in leaf.now) 0 }
{
    is_leaf_at(page, Offset(1))
        && leaf.size() + 4 <= page.room(1)
        && add_to_chain(page, Some(Offset(1)), leaf) == Offset(to)
}

/// A leaf page with a chain of three rows.
fn chain_of_three(rt: &impl Abort, alloc: Global) -> Result<Page, Memory> {
    let mut page = Page::new(alloc, PageKind::Leaf, false)?;
    let first = leaf_of(alloc, 1)?;
    assert!(rt; first.size() + 4 <= page.room(1));
    assert!(rt; add_to_chain(&mut page, None, &first) == Offset(1));
    for offset in 2..4 {
        let leaf = leaf_of(alloc, offset)?;
        assert!(rt; adds_behind(&mut page, &leaf, offset));
    }
    Ok(page)
}

/// The rows of the chain, as the digits of a number.
fn digits(page: &Page) -> u64 {
    let mut rows = 0;
    for leaf in walk_chain(page, Offset(1)) {
        rows = (rows % 1000) * 10 + leaf.row.offset() as u64;
    }
    rows
}

#[test]
fn a_chain_is_read_from_its_head(rt: HostRuntime) -> Result<(), Fail> {
    let page = chain_of_three(&rt, rt.alloc())?;
    let wanted = [Offset(1), Offset(3), Offset(2)];
    let chain = read_chain(rt.alloc(), &page, Offset(1))?;
    assert!(rt; chain.offsets.as_slice() == wanted.as_slice() && digits(&page) == 132);
    let size = chain_size(&page, Offset(1));
    assert!(rt; size.tuples == 3 && size.bytes == 84);
    Ok(())
}

/// Whether the first tuple is a redirect to there, and heads no chain.
fn is_redirect(page: &Page, to: &Place, stamp: Stamp) -> bool {
    page.count() >= 1
        && page.kind_at(Offset(1)) == TupleKind::Redirect
        && page.target_at(Offset(1)) == *to
        && page.stamp_at(Offset(1)) == stamp
        && chain_size(page, Offset(1)).tuples == 0
}

#[test]
fn a_taken_chain_leaves_a_redirect(rt: HostRuntime) -> Result<(), Fail> {
    let alloc = rt.alloc();
    let mut page = Page::new(alloc, PageKind::Leaf, false)?;
    let leaf = leaf_of(alloc, 1)?;
    assert!(rt; leaf.size() + 4 <= page.room(1));
    let head = add_to_chain(&mut page, None, &leaf);
    let to = Place {
        block: Block(9),
        offset: Offset(2),
    };
    take_chain(&mut page, head, to, Stamp::at(7));
    assert!(rt; is_redirect(&page, &to, Stamp::at(7)));
    Ok(())
}
