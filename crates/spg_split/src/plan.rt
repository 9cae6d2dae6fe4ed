ghost use Rattle.std.specs.Prelude.{◌≡◌, ◌<◌, ◌≤◌, ◌+◌, ◌-◌, ◌*◌, ℕ, length, take, slice_index};
ghost use Rattle.spg_forest.specs.Pages.{all_live};
ghost use Rattle.spg_forest.specs.Sheets.{weight, size_of};
ghost use Rattle.spg_chain.specs.Chains.{IsChainedPage, BeginsChain, chain_members};
ghost use Rattle.spg_split.specs.Placing.{taken_by};
ghost use Rattle.spg_chain.specs.Listed.{leaves_in};
ghost use Rattle.spg_split.specs.Parts.{AreReady};
ghost use Rattle.spg_split.specs.Planning.{size_of_list, left_after, staying, from_node, IsPlanOf, IsPlan, IsLeft, IsWayOf};

use crate::division::only_node;
use crate::parts::Parts;
use crate::put::Divided;
use spg_base::Offset;
use spg_chain::chain_size;
use spg_page::{Page, TupleBytes};

/// How much a list of leaf tuples is.
#[derive(Clone, Copy, Debug)]
pub(crate) struct ListSize {
    /// How many there are.
    pub(crate) tuples: usize,
    /// Their bytes, with the item pointer of each.
    pub(crate) bytes: usize,
}

/// What a page has left for lists.
#[derive(Clone, Copy, Debug)]
pub(crate) struct Left {
    /// Free bytes, at most 8,160.
    pub(crate) free: usize,
    /// Placeholders, each of which gives 20 bytes to a tuple in its place; at most 408.
    pub(crate) gaps: usize,
}

/// Where the lists of a division go.
#[derive(Clone, Copy, Debug)]
pub(crate) struct Plan {
    /// How many leaf tuples are put.
    pub(crate) count: usize,
    /// The lists of the nodes before this one stay on the old page; the others go away.
    pub(crate) cut: usize,
    /// How much goes away.
    pub(crate) rest: ListSize,
}

/// One leaf tuple more.
fn with_leaf(size: ListSize, leaf: &TupleBytes) -> ListSize
    requires tuples { size.tuples < 409 }
    requires bytes { size.bytes ≤ 8160 * 409 }
    ensures tuples { result.tuples ≡ size.tuples + 1 }
    ensures bytes { result.bytes ≡ size.bytes + (size_of leaf.now + 4) }
    ensures small { size_of leaf.now ≤ 8156 }
{
    ListSize {
        tuples: size.tuples + 1,
        bytes: size.bytes + leaf.size() as usize + 4,
    }
}

/// How much the list of a node is.
fn list_size(leaves: &[TupleBytes], node_of: &[u16], node: u16) -> ListSize
    requires few { length leaves.now ≤ 409 }
    requires each { length leaves.now ≤ length node_of.now }
    requires leaves { leaves.now ≡ all_live (leaves_in leaves.now) }
    ensures { result ≡ size_of_list (taken_by node leaves.now node_of.now) }
{
    let mut size = ListSize {
        tuples: 0,
        bytes: 0,
    };
    for index in 0..leaves.len() {
        if node_of[index] == node {
            size = with_leaf(size, &leaves[index]);
        }
    }
    size
}

/// What is left once a list is put. None where it does not fit.
fn after_list(left: Left, size: ListSize) -> Option<Left>
    requires { left.free + 20 * left.gaps ≤ 16340 }
    ensures { result ≡ left_after left size }
{
    let filled = size.tuples.min(left.gaps);
    let room = left.free + 20 * filled;
    if size.bytes <= room {
        Some(Left {
            free: room - size.bytes,
            gaps: left.gaps - filled,
        })
    } else {
        None
    }
}

/// What a page has left for lists once the chain at a head, of at least one leaf tuple, is taken away.
pub(crate) fn left_without(page: &Page, head: Offset) -> Left
    requires chained { IsChainedPage page.now.tuples }
    requires begins { BeginsChain page.now.tuples head }
    requires some { 0 < length (chain_members page.now.tuples head) }
    ensures left { IsLeft page.now.tuples head result }
    ensures bound { result.free + 20 * result.gaps ≤ 8160 }
{
    let size = chain_size(page, head);
    let free = page.free() as usize;
    let gaps = page.placeholders() as usize;
    Left {
        free: free + size.bytes - 20 * size.tuples,
        gaps: gaps + size.tuples - 1,
    }
}

/// How many nodes keep their lists on the page: those before the first whose list does not fit there
/// once the lists before it are put.
fn stay_count(leaves: &[TupleBytes], node_of: &[u16], nodes: usize, left: Left) -> usize
    requires few { length leaves.now ≤ 409 }
    requires each { length leaves.now ≤ length node_of.now }
    requires leaves { leaves.now ≡ all_live (leaves_in leaves.now) }
    requires nodes { nodes < 65536 }
    requires left { left.free + 20 * left.gaps ≤ 16340 }
    ensures { result ≡ staying (λ j. taken_by j leaves.now node_of.now) left 0 nodes }
{
    let mut rest = left;
    for node in 0..nodes {
        let Some(after) = after_list(rest, list_size(leaves, node_of, node as u16)) else {
            return node;
        };
        rest = after;
    }
    nodes
}

/// How much the lists of the nodes from one on are.
fn rest_size(leaves: &[TupleBytes], node_of: &[u16], from: usize) -> ListSize
    requires few { length leaves.now ≤ 409 }
    requires each { length leaves.now ≤ length node_of.now }
    ensures tuples { result.tuples ≡ length (from_node from leaves.now node_of.now) }
    ensures bytes { result.bytes ≡ weight (from_node from leaves.now node_of.now) }
{
    let mut size = ListSize {
        tuples: 0,
        bytes: 0,
    };
    for index in 0..leaves.len() {
        if from <= node_of[index] as usize {
            size = with_leaf(size, &leaves[index]);
        }
    }
    size
}

/// Where the lists of these leaf tuples go.
fn plan_of(leaves: &[TupleBytes], node_of: &[u16], nodes: usize, left: Left) -> Plan
    requires few { length leaves.now ≤ 409 }
    requires each { length leaves.now ≤ length node_of.now }
    requires leaves { leaves.now ≡ all_live (leaves_in leaves.now) }
    requires nodes { nodes < 65536 }
    requires left { left.free + 20 * left.gaps ≤ 16340 }
    ensures { IsPlanOf leaves.now node_of.now nodes left result }
{
    let cut = stay_count(leaves, node_of, nodes, left);
    Plan {
        count: leaves.len(),
        cut,
        rest: rest_size(leaves, node_of, cut),
    }
}

/// Where the lists go: with the last leaf where those that go away fit on one page, else without it.
pub(crate) fn plan_lists(parts: &Parts, left: Left) -> Plan
    requires parts { AreReady parts.now }
    requires left { left.free + 20 * left.gaps ≤ 16340 }
    requires some { 0 < length parts.now.leaves }
    requires others { weight (take (length parts.now.leaves - 1) parts.now.leaves) ≤ 8160 }
    ensures plan { IsPlan parts.now left result }
    ensures fits { result.rest.bytes ≤ 8160 }
{
    let leaves = parts.leaves.as_slice();
    let node_of = parts.node_of.as_slice();
    let nodes = parts.links.len();
    let all = plan_of(leaves, node_of, nodes, left);
    if all.rest.bytes <= 8160 {
        return all;
    }
    plan_of(&leaves[..leaves.len() - 1], node_of, nodes, left)
}

/// How a division is done that goes by a plan.
pub(crate) fn way_of(parts: &Parts, plan: &Plan) -> Divided
    requires ready { AreReady parts.now }
    requires some { 0 < length parts.now.leaves }
    ensures { IsWayOf parts.now plan.now result }
{
    let count = parts.leaves.len();
    if plan.count == count {
        Divided::With
    } else {
        let others = &parts.node_of.as_slice()[..count - 1];
        Divided::Without {
            in_one: only_node(others).is_some(),
        }
    }
}
