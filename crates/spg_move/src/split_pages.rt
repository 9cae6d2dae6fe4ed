ghost use Rattle.std.specs.Prelude.{◌≡◌, ◌<◌, ◌≤◌, ◌+◌, ◌-◌, false, length, IfOk, OnOk, OnErr, IsErrOf};
ghost use Rattle.spg_forest.specs.Sheets.{size_of, links};
ghost use Rattle.spg_page.specs.Changes.{room_of};
ghost use Rattle.spg_tree.specs.Table.{sheet_at, tuples_at, IsSound};
ghost use Rattle.spg_tree.specs.Pick.{IsFull};
ghost use Rattle.spg_tree.specs.declared.stand.StepRefused.TheVariants.{IndexFull, ClockFull};
ghost use Rattle.spg_move.specs.Splitting as splits;
ghost use Rattle.spg_move.specs.Splitting.{upper_table, parted_table, lower_want, split_touched, GoesTo, MayPart, IsParted};

use spg_base::{Block, Place, SeatNo, parity};
use spg_page::TupleBytes;
use spg_tree::{PageTable, StepRefused, Touched, Want};
use std::alloc::Global;

/// Whether the lower tuple fits beside the upper one, once that has replaced the old one, on a page
/// that is no root.
fn fits_beside(table: &PageTable, at: &Place, upper: &TupleBytes, lower: &TupleBytes) -> bool
    requires { MayPart table.now at.now upper.now }
    ensures { result ≡ splits.fits_beside table.now at.now upper.now lower.now }
{
    let page = table.page(at.block);
    let room = page.room(1) + page.size_at(at.offset) - upper.size();
    3 <= at.block.0 && lower.size() + 4 <= room
}

/// The block for the lower tuple: that of the upper one, or one that is picked.
fn pick_home(
    alloc: Global,
    table: &mut PageTable,
    at: &Place,
    upper: &TupleBytes,
    lower: &TupleBytes,
    seat: SeatNo,
) -> Result<Block, StepRefused>
    requires { MayPart table.old at.now upper.now }
    ensures ok { IfOk result (λ home. GoesTo table.old table.new at.now upper.now lower.now home seat) }
    ensures full { IsErrOf result IndexFull → (splits.fits_beside table.old at.now upper.now lower.now ≡ false) × IsFull table.old (lower_want (sheet_at table.old at.now.block).nulls at.now.block lower.now seat) }
    ensures clock { IsErrOf result ClockFull → ⊥ }
    ensures err { OnErr result (table.new ≡ table.old) }
{
    if fits_beside(table, at, upper, lower) {
        return Ok(at.block);
    }
    let nulls = table.page(at.block).is_nulls();
    let next = (parity(at.block) + 1) % 3;
    let need = lower.size() + 4;
    let block = table.pick(alloc, &Want::inner(nulls, next, need, seat))?;
    Ok(block)
}

/// Writes the upper tuple in the place of the old one, the lower tuple on a block, and the downlink
/// from the one to the other.
fn write_parts(
    table: &mut PageTable,
    at: Place,
    child: u16,
    home: Block,
    upper: &TupleBytes,
    lower: &TupleBytes,
)
    requires may { MayPart table.old at upper.now }
    requires node { child < length (links upper.now) }
    requires home { (0 < home) × (home < length table.old.pages) }
    requires room { size_of lower.now + 4 ≤ room_of (tuples_at (upper_table table.old at upper.now) home) 1 }
    ensures { table.new ≡ parted_table table.old at child home upper.now lower.now }
{
    table.put_at(&at, upper);
    let offset = table.add_on(home, lower);
    let to = Place {
        block: home,
        offset,
    };
    table.relink(at, child, Some(to));
}

/// The blocks that a split changes or has added.
fn touched_by(block: Block, home: Block, before: u32, now: u32) -> Touched
    requires ordered { before ≤ now }
    requires few { now - before ≤ 3 }
    ensures { result ≡ split_touched block home before now }
{
    let mut touched = Touched::new();
    touched.push(block);
    touched.push_another(home, block, before);
    touched.push_range(before, now);
    touched
}

/// Puts the upper tuple in the place of the old one, and the lower one where it goes.
pub(crate) fn part_tuple(
    alloc: Global,
    table: &mut PageTable,
    at: Place,
    child: u16,
    upper: &TupleBytes,
    lower: &TupleBytes,
    seat: SeatNo,
) -> Result<(), StepRefused>
    requires may { MayPart table.old at upper.now }
    requires node { child < length (links upper.now) }
    ensures ok { OnOk result (IsParted table.old table.new at child seat upper.now lower.now) }
    ensures full { IsErrOf result IndexFull → (splits.fits_beside table.old at upper.now lower.now ≡ false) × IsFull table.old (lower_want (sheet_at table.old at.block).nulls at.block lower.now seat) }
    ensures clock { IsErrOf result ClockFull → ⊥ }
    ensures err { OnErr result (table.new ≡ table.old) }
    ensures sound { IsSound table.old }
{
    let before = table.page_count();
    let home = pick_home(alloc, table, &at, upper, lower, seat)?;
    let touched = touched_by(at.block, home, before, table.page_count());
    write_parts(table, at, child, home, upper, lower);
    table.set_touched(touched);
    Ok(())
}
