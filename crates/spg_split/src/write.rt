ghost use Rattle.std.specs.Prelude.{◌≡◌, ◌<◌, ◌≤◌, ◌+◌, ◌-◌, ◌^◌, ◌++◌, ℕ, suc, length, take, drop, slice_get, Some as Just};
ghost use Rattle.spg_forest.specs.View.{Place as PlaceAt};
ghost use Rattle.spg_forest.specs.Tuples.{Inner};
ghost use Rattle.spg_forest.specs.Pages.{all_live, place};
ghost use Rattle.spg_forest.specs.Sheets.{size_of};
ghost use Rattle.spg_page.specs.Changes.{room_of};
ghost use Rattle.spg_page.specs.Kinds.{IsOffset};
ghost use Rattle.spg_page.specs.Reads.{frame_in};
ghost use Rattle.spg_chain.specs.Chains.{IsChainedPage, BeginsChain};
ghost use Rattle.spg_tree.specs.Table.{tuples_at, tuple_at};
ghost use Rattle.spg_descend.specs.BareNodes.{bare};
ghost use Rattle.spg_split.specs.Placing.{taken_by, HaveRooms, downlinks};
ghost use Rattle.spg_chain.specs.Listed.{leaves_in};
ghost use Rattle.spg_split.specs.Writing.{taken_table, lists_table, linked_table, both_tables, both_links, table_below, MayPart};
ghost use Rattle.spg_tree.specs.Writes.{new_place, added_table};

use crate::placing::put_range;
use crate::root::set_links;
use spg_base::{Block, List, Offset, Place, Stamp};
use spg_chain::take_chain;
use spg_page::TupleBytes;
use spg_tree::PageTable;

/// Takes the chain at a head away; a redirect with the clock's moment stands there then.
fn take_to(table: &mut PageTable, block: Block, head: Offset, to: Place)
    requires block { (0 < block) × (block < length table.old.pages) }
    requires chained { IsChainedPage (tuples_at table.old block) }
    requires begins { BeginsChain (tuples_at table.old block) head }
    requires to { 0 < to.offset }
    ensures { table.new ≡ taken_table table.old (place block head) to }
{
    let stamp = Stamp::at(table.clock());
    take_chain(table.page_mut(block), head, to, stamp);
}

/// Puts the lists of some nodes on a page.
fn put_some(
    table: &mut PageTable,
    block: Block,
    leaves: &[TupleBytes],
    node_of: &[u16],
    from: usize,
    to: usize,
    links: &mut List<Option<Place>>,
)
    requires block { (0 < block) × (block < length table.old.pages) }
    requires each { length leaves.now ≤ length node_of.now }
    requires leaves { leaves.now ≡ all_live (leaves_in leaves.now) }
    requires within { (from ≤ to) × (to ≤ length links.old) × (length links.old < 65536) }
    requires room { HaveRooms (tuples_at table.old block) (λ j. taken_by j leaves.now node_of.now) from (to - from) }
    ensures table { table.new ≡ lists_table table.old block (λ j. taken_by j leaves.now node_of.now) from (to - from) }
    ensures links { links.new ≡ take from links.old ++ downlinks block (tuples_at table.old block) (λ j. taken_by j leaves.now node_of.now) from (to - from) ++ drop to links.old }
{
    put_range(
        table.page_mut(block),
        block,
        leaves,
        node_of,
        from,
        to,
        links,
    );
}

/// Sets the downlinks of an inner tuple that leads nowhere yet.
fn link_inner(table: &mut PageTable, block: Block, at: Offset, links: &[Option<Place>])
    requires block { (0 < block) × (block < length table.old.pages) }
    requires offset { IsOffset (tuples_at table.old block) at }
    requires inner { tuple_at table.old (place block at) ≡ Inner (frame_in (tuple_at table.old (place block at))) (bare (length links.now)) }
    requires to { (i : ℕ) (y : PlaceAt) → slice_get links.now i ≡ Just (Just y) → (0 < y.block) × (0 < y.offset) }
    requires count { length links.now < 65536 }
    ensures { table.new ≡ linked_table table.old (place block at) links.now }
{
    set_links(table.page_mut(block), at, links);
}

/// Puts the lists: those of the nodes before the cut on one page, the others on another.
fn put_both(
    table: &mut PageTable,
    block: Block,
    other: Block,
    leaves: &[TupleBytes],
    node_of: &[u16],
    cut: usize,
    links: &mut List<Option<Place>>,
)
    requires block { (0 < block) × (block < length table.old.pages) }
    requires other { (0 < other) × (other < length table.old.pages) }
    requires each { length leaves.now ≤ length node_of.now }
    requires leaves { leaves.now ≡ all_live (leaves_in leaves.now) }
    requires within { (cut ≤ length links.old) × (length links.old < 65536) }
    requires stay { HaveRooms (tuples_at table.old block) (λ j. taken_by j leaves.now node_of.now) 0 cut }
    requires rest { HaveRooms (tuples_at (lists_table table.old block (λ j. taken_by j leaves.now node_of.now) 0 cut) other) (λ j. taken_by j leaves.now node_of.now) cut (length links.old - cut) }
    ensures table { table.new ≡ both_tables table.old block other (λ j. taken_by j leaves.now node_of.now) cut (length links.old) }
    ensures links { links.new ≡ both_links table.old block other (λ j. taken_by j leaves.now node_of.now) cut (length links.old) }
{
    let nodes = links.len();
    put_some(table, block, leaves, node_of, 0, cut, links);
    put_some(table, other, leaves, node_of, cut, nodes, links);
}

/// Writes a division of the chain at a head, to which a node of the tuple above leads: the inner tuple
/// goes to the block `home`, and the lists that leave the page of the chain to the block `rest`. It
/// tells at which offset the inner tuple is.
pub(crate) fn write_chain(
    table: &mut PageTable,
    block: Block,
    head: Offset,
    parent: Place,
    node: u16,
    home: Block,
    rest: Block,
    inner: &TupleBytes,
    leaves: &[TupleBytes],
    node_of: &[u16],
    cut: usize,
    links: &mut List<Option<Place>>,
) -> Offset
    requires each { length leaves.now ≤ length node_of.now }
    requires leaves { leaves.now ≡ all_live (leaves_in leaves.now) }
    requires may { MayPart table.old (place block head) parent node home rest inner.now (λ j. taken_by j leaves.now node_of.now) cut (length links.old) }
    ensures at { result ≡ (new_place table.old home).offset }
    ensures table { table.new ≡ table_below table.old (place block head) parent node home rest inner.now (λ j. taken_by j leaves.now node_of.now) cut (length links.old) }
{
    let at = table.add_on(home, inner);
    let to = Place {
        block: home,
        offset: at,
    };
    take_to(table, block, head, to);
    put_both(table, block, rest, leaves, node_of, cut, links);
    link_inner(table, home, at, links.as_slice());
    let to = Place {
        block: home,
        offset: at,
    };
    table.relink(parent, node, Some(to));
    table.raise_clock();
    at
}
