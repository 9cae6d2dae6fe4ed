ghost use Rattle.std.specs.Prelude.{◌≡◌, ◌<◌, ◌≤◌, ◌+◌, ◌^◌, ◌∷◌, [], suc, length, Some as Just, IfOk};
ghost use Rattle.spg_forest.specs.Tuples.{Live};
ghost use Rattle.spg_forest.specs.Pages.{all_live};
ghost use Rattle.spg_forest.specs.Sheets.{free_place, links, weight, with_tuples};
ghost use Rattle.spg_page.specs.Kinds.{IsOffset};
ghost use Rattle.spg_page.specs.Reads.{leaf_in};
ghost use Rattle.spg_chain.specs.Added.{IsLeafIn};
ghost use Rattle.spg_chain.specs.Chains.{IsChainedPage, BeginsChain};
ghost use Rattle.spg_tree.specs.Table.{tuples_at, tuple_at, with_tuples_at};
ghost use Rattle.spg_chain.specs.Listed.{chained, leaves_in, HaveRoom};
ghost use Rattle.spg_move.specs.Moving.{with_new, chain_leaves, left, moved_table};

use spg_base::{Block, List, Memory, Offset, Place, Stamp};
use spg_chain::{add_to_chain, leaf_tuple, take_chain, walk_chain};
use spg_page::{Page, TupleBytes};
use spg_tree::{PageTable, Touched};
use std::alloc::Global;

/// The leaf tuples of the chain at a head, in its order and without links.
pub(crate) fn chain_tuples(
    alloc: Global,
    page: &Page,
    head: Offset,
) -> Result<List<TupleBytes>, Memory>
    requires { weight (all_live (chain_leaves page.now.tuples head)) ≤ 8160 }
    ensures { IfOk result (λ leaves. leaves ≡ all_live (chain_leaves page.now.tuples head)) }
{
    let mut leaves = List::new(alloc);
    for leaf in walk_chain(page, head) {
        leaves.push(leaf_tuple(alloc, leaf.row, leaf.rest)?)?;
    }
    Ok(leaves)
}

/// Adds leaf tuples one after another, each behind the one before and the first behind that at an
/// offset.
fn put_behind(page: &mut Page, first: Offset, leaves: &[TupleBytes])
    requires first { IsLeafIn page.old.tuples (Just first) }
    requires leaves { leaves.now ≡ all_live (leaves_in leaves.now) }
    requires room { HaveRoom page.old.tuples (leaves_in leaves.now) }
    ensures { page.new ≡ with_tuples page.old (chained page.old.tuples first (leaves_in leaves.now)) }
{
    let mut last = first;
    for leaf in leaves {
        last = add_to_chain(page, Some(last), leaf);
    }
}

/// Adds the leaf tuples of a chain, and a new one behind its head. It tells where the head is.
fn put_chain(page: &mut Page, leaves: &[TupleBytes], new: &TupleBytes) -> Offset
    requires leaves { leaves.now ≡ all_live (leaves_in leaves.now) }
    requires new { new.now ≡ Live (leaf_in new.now) 0 }
    requires room { HaveRoom page.old.tuples (with_new (leaves_in leaves.now) (leaf_in new.now)) }
    ensures head { result ≡ suc (free_place page.old.tuples) }
    ensures tuples { page.new ≡ with_tuples page.old (chained page.old.tuples 0 (with_new (leaves_in leaves.now) (leaf_in new.now))) }
{
    if leaves.is_empty() {
        return add_to_chain(page, None, new);
    }
    let head = add_to_chain(page, None, &leaves[0]);
    let second = add_to_chain(page, Some(head), new);
    put_behind(page, second, &leaves[1..]);
    head
}

/// The list of three blocks.
fn blocks(first: Block, second: Block, third: Block) -> Touched
    ensures { result ≡ first ∷ second ∷ third ∷ [] }
{
    let mut touched = Touched::new();
    touched.push(first);
    touched.push(second);
    touched.push(third);
    touched
}

/// Puts the leaf tuples of a chain on a block, and a new one behind its head. It tells where the head
/// is.
fn put_on(table: &mut PageTable, block: Block, leaves: &[TupleBytes], new: &TupleBytes) -> Offset
    requires block { (0 < block) × (block < length table.old.pages) }
    requires leaves { leaves.now ≡ all_live (leaves_in leaves.now) }
    requires new { new.now ≡ Live (leaf_in new.now) 0 }
    requires room { HaveRoom (tuples_at table.old block) (with_new (leaves_in leaves.now) (leaf_in new.now)) }
    ensures head { result ≡ suc (free_place (tuples_at table.old block)) }
    ensures table { table.new ≡ with_tuples_at table.old block (chained (tuples_at table.old block) 0 (with_new (leaves_in leaves.now) (leaf_in new.now))) }
{
    let page = table.page_mut(block);
    put_chain(page, leaves, new)
}

/// Takes the chain at a place away. A redirect with the clock's moment stays.
fn take_from(table: &mut PageTable, at: &Place, to: Place)
    requires block { (0 < at.now.block) × (at.now.block < length table.old.pages) }
    requires chained { IsChainedPage (tuples_at table.old at.now.block) }
    requires head { BeginsChain (tuples_at table.old at.now.block) at.now.offset }
    requires to { 0 < to.offset }
    ensures { table.new ≡ with_tuples_at table.old at.now.block (left (tuples_at table.old at.now.block) at.now.offset to table.old.clock) }
{
    let stamp = Stamp::at(table.clock());
    let page = table.page_mut(at.block);
    take_chain(page, at.offset, to, stamp);
}

/// Puts the leaf tuples of the chain at a place on another page, and a new one behind its head. A
/// redirect with the clock's moment stays, and the node of the tuple above leads to the new head.
pub(crate) fn write_chain(
    table: &mut PageTable,
    block: Block,
    at: Place,
    parent: Place,
    node: u16,
    leaves: &[TupleBytes],
    new: &TupleBytes,
)
    requires block { (0 < block) × (block < length table.old.pages) }
    requires at { (0 < at.block) × (at.block < length table.old.pages) × (at.block ≡ block → ⊥) }
    requires chained { IsChainedPage (tuples_at table.old at.block) }
    requires head { BeginsChain (tuples_at table.old at.block) at.offset }
    requires parent { (0 < parent.block) × (parent.block < length table.old.pages) × (parent.block ≡ block → ⊥) × (parent.block ≡ at.block → ⊥) }
    requires within { IsOffset (tuples_at table.old parent.block) parent.offset }
    requires node { node < length (links (tuple_at table.old parent)) }
    requires leaves { leaves.now ≡ all_live (leaves_in leaves.now) }
    requires new { new.now ≡ Live (leaf_in new.now) 0 }
    requires room { HaveRoom (tuples_at table.old block) (with_new (leaves_in leaves.now) (leaf_in new.now)) }
    requires clock { table.old.clock + 1 < 2 ^ 48 }
    ensures { table.new ≡ moved_table table.old block at parent node (with_new (leaves_in leaves.now) (leaf_in new.now)) }
{
    let touched = blocks(block, at.block, parent.block);
    let offset = put_on(table, block, leaves, new);
    take_from(table, &at, Place { block, offset });
    table.relink(parent, node, Some(Place { block, offset }));
    table.raise_clock();
    table.set_touched(touched);
}
