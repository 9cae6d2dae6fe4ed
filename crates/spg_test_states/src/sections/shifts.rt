ghost use Rattle.std.specs.Prelude.{◌≡◌, IfOk};
ghost use Rattle.spg_forest.specs.Pages.{IsFresh};
ghost use Rattle.spg_forest.specs.Shape.{Shape, spots};
ghost use Rattle.spg_tree.specs.Table.{sheets_of};
ghost use Rattle.spg_core.specs.Stage.{free};
ghost use Rattle.spg_core.specs.Seen.{stage_at};

use crate::sections::answers::{added, follow_named};
use crate::sections::clock::{at_root, copied, parted};
use crate::sections::moments::{LAST, Outcome, are_pages};
use crate::sections::texts::{Texts, key_of};
use crate::sections::wide::widen_all;
use spg_base::{Block, Bytes, List, Memory, Offset, Place, Row, Stamp};
use spg_core::State;
use spg_page::{Node, Nodes, Page, PageKind, Tuple};
use spg_radix::Radix;
use spg_tree::{PageTable, StepRefused};
use std::alloc::Global;
use std::mem;
use std::test::Fail;

/// Limits, moments of the clock, and what comes of a node that has no room. A full clock is told
/// before a full index.
const ADDS: [(u32, u64, Result<(), StepRefused>); 4] = [
    (9, 0, Ok(())),
    (8, 0, Err(StepRefused::IndexFull)),
    (9, LAST, Err(StepRefused::ClockFull)),
    (8, LAST, Err(StepRefused::ClockFull)),
];

/// The node that is put in, whose label comes second.
const NEW: Node = Node {
    label: 13,
    link: None,
};

fn place(block: u32, offset: u16) -> Place {
    Place {
        block: Block(block),
        offset: Offset(offset),
    }
}

/// The pages of an index once its last page is full of inner tuples, at this limit and moment. The row is
/// not on them.
fn widened<O: Texts>(
    alloc: Global,
    state: &mut State<O>,
    row: Row,
    limit: u32,
    clock: Stamp,
) -> Result<PageTable, Memory>
    requires { stage_at state.old 0 ≡ free }
    ensures shape { IfOk result (λ made. Shape O.meaning (sheets_of made)) }
    ensures fresh { IfOk result (λ made. IsFresh (spots (sheets_of made)) row) }
{
    widen_all(alloc, state)?;
    parted(alloc, state, row, limit, clock)
}

/// The pages of an index whose last page is full of inner tuples, at this limit and moment. The row
/// is not on them.
fn prepared<O: Texts>(
    alloc: Global,
    class: O,
    row: Row,
    limit: u32,
    clock: Stamp,
) -> Result<PageTable, Memory>
    ensures shape { IfOk result (λ made. Shape O.meaning (sheets_of made)) }
    ensures fresh { IfOk result (λ made. IsFresh (spots (sheets_of made)) row) }
{
    let mut state = State::new(alloc, class, 65536)?;
    let made = widened(alloc, &mut state, row, limit, clock);
    mem::forget(state);
    made
}

/// What came of a node that was to be put in, with the pages before and after.
#[derive(Drop)]
struct Trial {
    outcome: Outcome,
    old: List<Page>,
    new: List<Page>,
}

/// A text for which the tuple below the root has no node.
fn new_key<O: Texts>(alloc: Global) -> Result<O::Key, Memory> {
    key_of::<O>(Bytes::copy(alloc, b"a\x0d")?)
}

/// An insert of a text comes to the tuple below the root, which is to have one more node.
fn tried<O: Texts>(
    alloc: Global,
    class: &O,
    table: &mut PageTable,
    row: Row,
) -> Result<Trial, Memory>
    requires shape { Shape O.meaning (sheets_of table.old) }
    requires fresh { IsFresh (spots (sheets_of table.old)) row }
{
    let key = new_key::<O>(alloc)?;
    let mut descent = at_root(alloc, class, table, row, Some(key))?;
    follow_named(alloc, class, table, &mut descent)?;
    let old = copied(alloc, table)?;
    let before = (descent.stand(), descent.parent());
    let answer = added(alloc, class, table, &mut descent)?;
    let outcome = Outcome {
        answer,
        same_pages: are_pages(table, &old),
        same_insert: (descent.stand(), descent.parent()) == before,
        clock: table.clock(),
    };
    let new = copied(alloc, table)?;
    Ok(Trial { outcome, old, new })
}

/// What comes of the node at a limit and a moment.
fn tried_at<O: Texts>(alloc: Global, class: O, limit: u32, moment: u64) -> Result<Trial, Memory> {
    let Some(clock) = Stamp::new(moment) else {
        return Err(Memory);
    };
    let row = Row::at(2, 1);
    let mut table = prepared(alloc, class, row, limit, clock)?;
    tried(alloc, &class, &mut table, row)
}

/// A page's kind, how many tuples it has, and how many bytes are free.
fn sums(pages: &List<Page>, block: usize) -> Option<(PageKind, u16, u16)> {
    let page = pages.get(block)?;
    Some((page.kind(), page.count(), page.free()))
}

/// A copy of what stands at a place, where something does.
fn tuple_at(alloc: Global, pages: &List<Page>, block: usize, offset: u16) -> Result<Tuple, Memory> {
    match pages.get(block) {
        Some(page) if offset >= 1 && offset <= page.count() => page.tuple(alloc, Offset(offset)),
        _ => Err(Memory),
    }
}

/// The nodes of an inner tuple without a prefix.
fn nodes_at(alloc: Global, pages: &List<Page>, block: usize, offset: u16) -> Result<Nodes, Memory> {
    match tuple_at(alloc, pages, block, offset)? {
        Tuple::Inner(inner) => {
            if inner.all_same || !inner.prefix.is_empty() {
                return Err(Memory);
            }
            Ok(inner.nodes)
        }
        _ => Err(Memory),
    }
}

/// Where a redirect leads, and its stamp.
fn redirect_at(
    alloc: Global,
    pages: &List<Page>,
    block: usize,
    offset: u16,
) -> Result<(Place, u64), Memory> {
    let tuple = tuple_at(alloc, pages, block, offset)?;
    match &tuple {
        Tuple::Redirect { to, stamp } => Ok((*to, stamp.moment())),
        _ => Err(Memory),
    }
}

/// The nodes with the new one.
fn longer(alloc: Global, nodes: &Nodes) -> Result<Nodes, Memory> {
    let mut longer = Nodes::new(alloc);
    for node in nodes.as_slice() {
        longer.push(*node)?;
        if longer.as_slice().len() == 1 {
            longer.push(NEW)?;
        }
    }
    Ok(longer)
}

/// Whether a page has the same bytes before and after.
fn is_same(old: &List<Page>, new: &List<Page>, block: usize) -> bool {
    match (old.get(block), new.get(block)) {
        (Some(page), Some(other)) => page.bytes() == other.bytes(),
        _ => false,
    }
}

/// How many nodes the inner tuples of the full page have before, by their offsets.
const COUNTS: [(u16, usize); 4] = [(1, 257), (2, 257), (3, 257), (4, 243)];

/// Whether an inner tuple of the full page has so many nodes.
fn has_count(alloc: Global, pages: &List<Page>, offset: u16, count: usize) -> Result<bool, Memory> {
    let nodes = nodes_at(alloc, pages, 5, offset)?;
    Ok(nodes.as_slice().len() == count)
}

/// Whether the only node of the root leads there.
fn leads_to(alloc: Global, pages: &List<Page>, to: Place) -> Result<bool, Memory> {
    let root = nodes_at(alloc, pages, 1, 1)?;
    let node = Node {
        label: 97,
        link: Some(to),
    };
    Ok(root.as_slice() == [node].as_slice())
}

/// The pages before: the last one is full.
fn is_before(alloc: Global, old: &List<Page>) -> Result<bool, Memory> {
    for (offset, count) in COUNTS {
        if !has_count(alloc, old, offset, count)? {
            return Ok(false);
        }
    }
    let full = old.len() == 6 && sums(old, 5) == Some((PageKind::Inner, 4, 0));
    Ok(leads_to(alloc, old, place(5, 4))? && full)
}

/// Whether the inner tuple at an offset of the full page has the same nodes before and after.
fn has_same_nodes(
    alloc: Global,
    old: &List<Page>,
    new: &List<Page>,
    offset: u16,
) -> Result<bool, Memory> {
    let before = nodes_at(alloc, old, 5, offset)?;
    let after = nodes_at(alloc, new, 5, offset)?;
    Ok(after.as_slice() == before.as_slice())
}

/// Where the tuple stood: a redirect, beside the tuples that were there.
fn is_left(alloc: Global, old: &List<Page>, new: &List<Page>) -> Result<bool, Memory> {
    for offset in 1..4 {
        if !has_same_nodes(alloc, old, new, offset)? {
            return Ok(false);
        }
    }
    let leads = redirect_at(alloc, new, 5, 4)? == (place(8, 1), 0);
    Ok(leads && sums(new, 5) == Some((PageKind::Inner, 4, 1936)))
}

/// The nodes of the tuple that moves, with the new one.
fn nodes_with_new(alloc: Global, old: &List<Page>) -> Result<Nodes, Memory> {
    let before = nodes_at(alloc, old, 5, 4)?;
    longer(alloc, &before)
}

/// The next page of the same parity has the tuple with the new node, and the root leads there.
fn has_moved(alloc: Global, old: &List<Page>, new: &List<Page>) -> Result<bool, Memory> {
    if !leads_to(alloc, new, place(8, 1))? {
        return Ok(false);
    }
    let wanted = nodes_with_new(alloc, old)?;
    let nodes = nodes_at(alloc, new, 8, 1)?;
    Ok(nodes.as_slice() == wanted.as_slice())
}

/// Whether a page of inner tuples has these sums.
fn has_sums(new: &List<Page>, block: usize, count: u16, free: u16) -> bool {
    sums(new, block) == Some((PageKind::Inner, count, free))
}

/// The other pages are as they were, and two more are empty.
fn are_others(old: &List<Page>, new: &List<Page>) -> bool {
    new.len() == 9
        && is_same(old, new, 0)
        && is_same(old, new, 2)
        && is_same(old, new, 3)
        && is_same(old, new, 4)
        && sums(new, 1) == sums(old, 1)
        && has_sums(new, 6, 0, 8160)
        && has_sums(new, 7, 0, 8160)
        && has_sums(new, 8, 1, 6196)
}

/// What was and what comes of the node, where the tuple moves.
fn moves(alloc: Global, old: &List<Page>, new: &List<Page>) -> Result<bool, Memory> {
    let left = is_left(alloc, old, new)?;
    let moved = has_moved(alloc, old, new)?;
    Ok(left && moved && are_others(old, new))
}

/// Whether that comes of the node. Where it is refused, pages, insert and clock stay.
fn is_so(
    alloc: Global,
    limit: u32,
    moment: u64,
    wanted: Result<(), StepRefused>,
) -> Result<bool, Memory> {
    let tried = tried_at(alloc, Radix, limit, moment)?;
    let stays = wanted.is_err();
    let expected = Outcome {
        answer: Some(wanted),
        same_pages: stays,
        same_insert: stays,
        clock: if stays {
            moment
        } else {
            moment.saturating_add(1)
        },
    };
    let before = is_before(alloc, &tried.old)? && tried.outcome == expected;
    Ok(before && (stays || moves(alloc, &tried.old, &tried.new)?))
}

/// An inner tuple that has no room for one more node moves to another page. Where the clock or the
/// index is full, pages and insert stay as they were.
#[test]
fn moves_an_inner_tuple_without_room(rt: HostRuntime) -> Result<(), Fail> {
    for (limit, moment, wanted) in ADDS {
        assert!(rt; is_so(rt.alloc(), limit, moment, wanted)?);
    }
    Ok(())
}
