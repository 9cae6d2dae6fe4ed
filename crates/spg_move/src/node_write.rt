ghost use Rattle.std.specs.Prelude.{◌≡◌, ◌<◌, ◌≤◌, ◌+◌, ◌^◌, ◌↔◌, length, IsTrue, IfOk, OnErr, IsErrOf};
ghost use Rattle.spg_forest.specs.Sheets.{size_of};
ghost use Rattle.spg_page.specs.Changes.{room_of};
ghost use Rattle.spg_page.specs.Kinds.{IsOffset};
ghost use Rattle.spg_tree.specs.Table.{tuples_at, IsSound};
ghost use Rattle.spg_tree.specs.Pick.{IsFull};
ghost use Rattle.spg_tree.specs.declared.stand.StepRefused.TheVariants.{IndexFull, ClockFull};
ghost use Rattle.spg_tree.specs.Writes.{new_place, FitsInPlace};
ghost use Rattle.spg_move.specs.Widening.{widened_table, shifted_table, blocks_shifted, node_want, IsHung, IsShifted};

use spg_base::{Block, Offset, Place, SeatNo, Stamp, parity};
use spg_page::{Page, TupleBytes};
use spg_tree::{PageTable, StepRefused, Touched, Want};
use std::alloc::Global;

/// Whether a tuple fits in the place of the one at an offset.
pub(crate) fn fits_in_place(page: &Page, offset: Offset, tuple: &TupleBytes) -> bool
    requires { IsOffset page.now.tuples offset }
    ensures { IsTrue result ↔ FitsInPlace page.now.tuples offset tuple.now }
{
    tuple.size() <= page.size_at(offset) + page.free()
}

/// Puts the longer tuple in the place of the old one.
pub(crate) fn widen_here(table: &mut PageTable, at: &Place, longer: &TupleBytes)
    requires block { (0 < at.now.block) × (at.now.block < length table.old.pages) }
    requires offset { IsOffset (tuples_at table.old at.now.block) at.now.offset }
    requires room { FitsInPlace (tuples_at table.old at.now.block) at.now.offset longer.now }
    ensures { table.new ≡ widened_table table.old at.now longer.now }
{
    let mut touched = Touched::new();
    touched.push(at.block);
    table.put_at(at, longer);
    table.set_touched(touched);
}

/// Puts the longer tuple on another page. A redirect with the clock's moment stays, and the node of
/// the tuple above leads to the new place, which it tells.
fn write_shifted(
    table: &mut PageTable,
    block: Block,
    at: &Place,
    parent: &Place,
    node: u16,
    longer: &TupleBytes,
) -> Place
    requires hung { IsHung table.old at.now parent.now node }
    requires block { (0 < block) × (block < length table.old.pages) }
    requires apart { at.now.block ≡ block → ⊥ }
    requires room { size_of longer.now + 4 ≤ room_of (tuples_at table.old block) 1 }
    requires clock { table.old.clock + 1 < 2 ^ 48 }
    ensures at { result ≡ new_place table.old block }
    ensures table { table.new ≡ shifted_table table.old block at.now parent.now node longer.now }
{
    let offset = table.add_on(block, longer);
    let stamp = Stamp::at(table.clock());
    let redirect = TupleBytes::redirect(Place { block, offset }, stamp);
    table.put_at(at, &redirect);
    table.relink(*parent, node, Some(Place { block, offset }));
    table.raise_clock();
    Place { block, offset }
}

/// The blocks that the move of an inner tuple changes or has added.
fn touched_by(old: Block, above: Block, picked: Block, before: u32, now: u32) -> Touched
    requires ordered { before ≤ now }
    requires few { now ≤ before + 3 }
    ensures { result ≡ blocks_shifted old above picked before now }
{
    let mut touched = Touched::new();
    touched.push(old);
    touched.push_another(above, old, before);
    touched.push_another(picked, above, before);
    touched.push_range(before, now);
    touched
}

/// Picks an inner page of the same parity for the longer tuple at a place, to which a node of the
/// tuple above leads, and puts it there. It tells where it is.
pub(crate) fn shift(
    alloc: Global,
    table: &mut PageTable,
    nulls: bool,
    at: &Place,
    parent: &Place,
    node: u16,
    longer: &TupleBytes,
    seat: SeatNo,
) -> Result<Place, StepRefused>
    requires hung { IsHung table.old at.now parent.now node }
    requires clock { table.old.clock + 1 < 2 ^ 48 }
    ensures ok { IfOk result (λ to. IsShifted table.old table.new nulls at.now parent.now node longer.now seat to) }
    ensures full { IsErrOf result IndexFull → IsFull table.old (node_want nulls at.now.block (size_of longer.now) seat) }
    ensures clock { IsErrOf result ClockFull → ⊥ }
    ensures err { OnErr result (table.new ≡ table.old) }
    ensures sound { IsSound table.old }
{
    let before = table.page_count();
    let need = longer.size() + 4;
    let want = Want::inner(nulls, parity(at.block), need, seat).avoiding(at.block);
    let block = table.pick(alloc, &want)?;
    let touched = touched_by(at.block, parent.block, block, before, table.page_count());
    let to = write_shifted(table, block, at, parent, node, longer);
    table.set_touched(touched);
    Ok(to)
}
