ghost use Rattle.std.specs.Prelude.{◌≡◌, ◌<◌, ◌≤◌, ◌+◌, ◌-◌, ◌∷◌, ◌++◌, [], ℕ, suc, length, take, drop, None as Nil, Some as Just, IfSome};
ghost use Rattle.spg_forest.specs.Pages.{all_live};
ghost use Rattle.spg_forest.specs.Tuples.{Live};
ghost use Rattle.spg_forest.specs.Sheets.{free_place, size_of, with_tuples};
ghost use Rattle.spg_forest.specs.Edits.{added};
ghost use Rattle.spg_page.specs.Told.{number_of};
ghost use Rattle.spg_page.specs.Changes.{room_of};
ghost use Rattle.spg_page.specs.Reads.{leaf_in};
ghost use Rattle.spg_chain.specs.Added.{IsLeafIn};
ghost use Rattle.spg_split.specs.Placing.{taken_by, head_of, placed, downlinks, downlink, HaveRooms};
ghost use Rattle.spg_chain.specs.Listed.{chained, leaves_in, HaveRoom};
ghost use Rattle.spg_split.specs.Ends.{last_of, head_or};

use spg_base::{Block, List, Offset, Place};
use spg_chain::add_to_chain;
use spg_page::{Page, TupleBytes};

/// The first and the last offset of a chain.
#[derive(Clone, Copy, Debug)]
struct Ends {
    head: Offset,
    last: Offset,
}

/// Adds a leaf tuple at the end of a chain, or as one of its own where there is none.
fn add_at_end(page: &mut Page, ends: Option<Ends>, leaf: &TupleBytes) -> Ends
    requires last { IsLeafIn page.old.tuples (last_of ends) }
    requires leaf { leaf.now ≡ Live (leaf_in leaf.now) 0 }
    requires room { size_of leaf.now + 4 ≤ room_of page.old.tuples 1 }
    ensures last { result.last ≡ suc (free_place page.old.tuples) }
    ensures head { Just result.head ≡ head_or ends (Just (suc (free_place page.old.tuples))) }
    ensures tuples { page.new ≡ with_tuples page.old (added page.old.tuples (number_of (last_of ends)) (suc (free_place page.old.tuples)) (leaf_in leaf.now)) }
{
    match ends {
        None => {
            let at = add_to_chain(page, None, leaf);
            Ends { head: at, last: at }
        }
        Some(Ends { head, last }) => {
            let at = add_to_chain(page, Some(last), leaf);
            Ends { head, last: at }
        }
    }
}

/// Adds those leaf tuples that go to a node, as a chain in their order, and gives its head.
fn put_list(page: &mut Page, leaves: &[TupleBytes], node_of: &[u16], node: u16) -> Option<Offset>
    requires each { length leaves.now ≤ length node_of.now }
    requires leaves { leaves.now ≡ all_live (leaves_in leaves.now) }
    requires room { HaveRoom page.old.tuples (taken_by node leaves.now node_of.now) }
    ensures head { result ≡ head_of page.old.tuples (taken_by node leaves.now node_of.now) }
    ensures tuples { page.new ≡ with_tuples page.old (chained page.old.tuples 0 (taken_by node leaves.now node_of.now)) }
{
    let mut ends = None;
    for index in 0..leaves.len() {
        if node_of[index] == node {
            ends = Some(add_at_end(page, ends, &leaves[index]));
        }
    }
    head_in(ends)
}

/// Where a chain begins.
fn head_in(ends: Option<Ends>) -> Option<Offset>
    ensures { result ≡ head_or ends Nil }
{
    match ends {
        None => None,
        Some(ends) => Some(ends.head),
    }
}

/// Adds the leaf tuples of some nodes to a page, those of each as a chain of its own, and sets the
/// downlinks to the chains.
pub(crate) fn put_range(
    page: &mut Page,
    block: Block,
    leaves: &[TupleBytes],
    node_of: &[u16],
    from: usize,
    to: usize,
    links: &mut List<Option<Place>>,
)
    requires each { length leaves.now ≤ length node_of.now }
    requires leaves { leaves.now ≡ all_live (leaves_in leaves.now) }
    requires within { (from ≤ to) × (to ≤ length links.old) × (length links.old < 65536) }
    requires room { HaveRooms page.old.tuples (λ j. taken_by j leaves.now node_of.now) from (to - from) }
    ensures tuples { page.new ≡ with_tuples page.old (placed page.old.tuples (λ j. taken_by j leaves.now node_of.now) from (to - from)) }
    ensures links { links.new ≡ take from links.old ++ downlinks block page.old.tuples (λ j. taken_by j leaves.now node_of.now) from (to - from) ++ drop to links.old }
{
    for node in from..to {
        let head = put_list(page, leaves, node_of, node as u16);
        links.set(node, link_to(block, head));
    }
}

/// Adds the leaf tuples of each node to a page, as a chain of its own, and sets the downlinks to
/// the chains.
pub(crate) fn put_lists(
    page: &mut Page,
    block: Block,
    leaves: &[TupleBytes],
    node_of: &[u16],
    links: &mut List<Option<Place>>,
)
    requires each { length leaves.now ≤ length node_of.now }
    requires leaves { leaves.now ≡ all_live (leaves_in leaves.now) }
    requires count { length links.old < 65536 }
    requires room { HaveRooms page.old.tuples (λ j. taken_by j leaves.now node_of.now) 0 (length links.old) }
    ensures tuples { page.new ≡ with_tuples page.old (placed page.old.tuples (λ j. taken_by j leaves.now node_of.now) 0 (length links.old)) }
    ensures links { links.new ≡ downlinks block page.old.tuples (λ j. taken_by j leaves.now node_of.now) 0 (length links.old) }
{
    let nodes = links.len();
    put_range(page, block, leaves, node_of, 0, nodes, links);
}

/// The downlink to a chain.
fn link_to(block: Block, head: Option<Offset>) -> Option<Place>
    ensures { result ≡ downlink block head }
{
    match head {
        None => None,
        Some(offset) => Some(Place { block, offset }),
    }
}
