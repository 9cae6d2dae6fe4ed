ghost use Rattle.std.specs.Prelude.{◌≡◌, ◌<◌, ◌≤◌, ◌-◌, ℕ, length, take, IfOk, OnOk, OnErr, IsErrOf};
ghost use Rattle.spg_forest.specs.Tuples.{Inner};
ghost use Rattle.spg_forest.specs.Pages.{all_live};
ghost use Rattle.spg_forest.specs.Sheets.{weight};
ghost use Rattle.spg_page.specs.Reads.{frame_in};
ghost use Rattle.spg_tree.specs.Pick.{IsFull};
ghost use Rattle.spg_tree.specs.Table.{sheet_at, tuples_at};
ghost use Rattle.spg_tree.specs.declared.stand.StepRefused.TheVariants.{IndexFull, ClockFull};
ghost use Rattle.spg_split.specs.Fulls.{IsPuttingFull};
ghost use Rattle.spg_split.specs.Dividing.{AreAllLive};
ghost use Rattle.spg_split.specs.Placing.{taken_by, HaveRooms};
ghost use Rattle.spg_chain.specs.Listed.{leaves_in};
ghost use Rattle.spg_split.specs.Parts.{divided_table, lists_want, PutsLists, AreReady, IsWay, going};
ghost use Rattle.spg_descend.specs.BareNodes.{bare};

use crate::division::only_node;
use crate::parts::Parts;
use crate::placing::put_lists;
use crate::root::make_inner_root;
use spg_base::{Block, List, Place, SeatNo};
use spg_chain::bytes_of;
use spg_page::TupleBytes;
use spg_tree::{PageTable, StepRefused, Touched, Want};
use std::alloc::Global;

/// How a division is done.
#[derive(Clone, Copy, Debug)]
pub(crate) enum Divided {
    /// With the leaf of the insert.
    With,
    /// Without it. `in_one` tells whether all others are in one list.
    Without { in_one: bool },
}

/// Writes the lists of leaf tuples to a leaf page, and the inner tuple to the root's page.
fn write_parts(
    table: &mut PageTable,
    root: Block,
    block: Block,
    leaves: &[TupleBytes],
    node_of: &[u16],
    inner: &TupleBytes,
    links: &mut List<Option<Place>>,
)
    requires root { (0 < root) × (root < length table.old.pages) }
    requires block { (0 < block) × (block < length table.old.pages) × (block ≡ root → ⊥) }
    requires live { AreAllLive (tuples_at table.old root) }
    requires each { length leaves.now ≤ length node_of.now }
    requires leaves { leaves.now ≡ all_live (leaves_in leaves.now) }
    requires inner { inner.now ≡ Inner (frame_in inner.now) (bare (length links.old)) }
    requires count { length links.old < 65536 }
    requires room { HaveRooms (tuples_at table.old block) (λ j. taken_by j leaves.now node_of.now) 0 (length links.old) }
    ensures { table.new ≡ divided_table table.old root block leaves.now node_of.now inner.now (length links.old) }
{
    put_lists(table.page_mut(block), block, leaves, node_of, links);
    make_inner_root(table.page_mut(root), inner, links.as_slice());
    let mut touched = Touched::new();
    touched.push(block);
    touched.push(root);
    table.set_touched(touched);
}

/// Puts leaf tuples, the first of the parts, in lists on a page that is picked, and the inner tuple on
/// the root's page.
fn put_parts(
    alloc: Global,
    table: &mut PageTable,
    root: Block,
    parts: Parts,
    count: usize,
    seat: SeatNo,
) -> Result<(), StepRefused>
    requires root { (0 < root) × (root < 3) × (root < length table.old.pages) }
    requires live { AreAllLive (tuples_at table.old root) }
    requires fits { (b : ℕ) → weight (tuples_at table.old b) ≤ 8160 }
    requires parts { AreReady parts }
    requires count { count ≤ length parts.leaves }
    requires need { weight (take count parts.leaves) ≤ 8160 }
    ensures ok { OnOk result (PutsLists table.old table.new root seat parts (take count parts.leaves)) }
    ensures full { IsErrOf result IndexFull → IsFull table.old (lists_want (sheet_at table.old root).nulls (take count parts.leaves) seat) }
    ensures clock { IsErrOf result ClockFull → ⊥ }
    ensures err { OnErr result (table.new ≡ table.old) }
{
    let Parts {
        leaves,
        node_of,
        inner,
        mut links,
    } = parts;
    let leaves = &leaves.as_slice()[..count];
    let nulls = table.page(root).is_nulls();
    let need = bytes_of(leaves) as u16;
    let want = Want::leaf(nulls, need, count as u16, seat);
    let block = table.pick(alloc, &want)?;
    write_parts(
        table,
        root,
        block,
        leaves,
        node_of.as_slice(),
        &inner,
        &mut links,
    );
    Ok(())
}

/// Whether all go, or all but the last.
fn way_of(parts: &Parts) -> Divided
    requires ready { AreReady parts.now }
    requires some { 0 < length parts.now.leaves }
    ensures { IsWay parts.now result }
{
    let count = parts.leaves.len();
    if bytes_of(parts.leaves.as_slice()) <= 8160 {
        Divided::With
    } else {
        let others = &parts.node_of.as_slice()[..count - 1];
        Divided::Without {
            in_one: only_node(others).is_some(),
        }
    }
}

/// How many go.
fn count_of(parts: &Parts, way: Divided) -> usize
    requires { 0 < length parts.now.leaves }
    ensures within { result ≤ length parts.now.leaves }
    ensures value { take result parts.now.leaves ≡ going parts.now way }
{
    match way {
        Divided::With => parts.leaves.len(),
        Divided::Without { .. } => parts.leaves.len() - 1,
    }
}

/// Puts the tuples of a division on the root's page and on a page that is picked.
pub(crate) fn put_division(
    alloc: Global,
    table: &mut PageTable,
    root: Block,
    parts: Parts,
    seat: SeatNo,
) -> Result<Divided, StepRefused>
    requires root { (0 < root) × (root < 3) × (root < length table.old.pages) }
    requires live { AreAllLive (tuples_at table.old root) }
    requires fits { (b : ℕ) → weight (tuples_at table.old b) ≤ 8160 }
    requires parts { AreReady parts }
    requires some { 0 < length parts.leaves }
    requires others { weight (take (length parts.leaves - 1) parts.leaves) ≤ 8160 }
    ensures way { IfOk result (λ way. IsWay parts way) }
    ensures ok { IfOk result (λ way. PutsLists table.old table.new root seat parts (going parts way)) }
    ensures full { IsErrOf result IndexFull → IsPuttingFull table.old root parts seat }
    ensures clock { IsErrOf result ClockFull → ⊥ }
    ensures err { OnErr result (table.new ≡ table.old) }
{
    let way = way_of(&parts);
    let count = count_of(&parts, way);
    put_parts(alloc, table, root, parts, count, seat)?;
    Ok(way)
}
