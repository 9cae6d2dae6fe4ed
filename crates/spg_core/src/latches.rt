ghost use Rattle.std.specs.Prelude.{◌≡◌, ◌<◌, IfSome, length};
ghost use Rattle.spg_descend.specs.Leaves.{released, stand_block, parent_block};
ghost use Rattle.spg_descend.specs.Follows.{IsOpenTo, latched};
ghost use Rattle.spg_core.specs.Latches.{left_block, Settles};
ghost use Rattle.spg_core.specs.Telling.{IsButLatches};

use crate::answer::InsertOut;
use spg_base::{Block, Place, SeatNo};
use spg_descend::release_latches;
use spg_opclass::OpClass;
use spg_tree::{Descent, PageTable, Stand};

/// The block on which an insert stands.
pub(crate) fn stand_block(stand: Stand) -> Option<Block>
    ensures { result ≡ stand_block stand }
{
    match stand {
        Stand::Root(block) => Some(block),
        Stand::At(place) => Some(place.block),
        Stand::Start | Stand::Empty => None,
    }
}

/// The block of the tuple above.
fn parent_block(parent: Option<(Place, u16)>) -> Option<Block>
    ensures { result ≡ parent_block parent }
{
    match parent {
        None => None,
        Some((place, _)) => Some(place.block),
    }
}

/// The block on which an insert stood, unless it or the tuple above it is on that block now.
fn left_block(was: Option<Block>, now: Option<Block>, above: Option<Block>) -> Option<Block>
    ensures { result ≡ left_block was now above }
{
    match was {
        None => None,
        Some(block) => {
            if now == Some(block) || above == Some(block) {
                None
            } else {
                Some(block)
            }
        }
    }
}

/// Latches a block, where there is one and no other seat holds it.
fn latch(table: &mut PageTable, block: Option<Block>, seat: SeatNo)
    requires { IfSome block (λ b. b < length table.old.pages) }
    ensures table { IsButLatches table.old table.new }
    ensures taken { IsOpenTo table.old block seat → table.new ≡ latched table.old block seat }
{
    if let Some(block) = block {
        let _ = table.try_latch(block, seat);
    }
}

/// Gives a block free, where there is one and the seat holds it.
fn give_free(table: &mut PageTable, block: Option<Block>, seat: SeatNo)
    requires { IfSome block (λ b. b < length table.old.pages) }
    ensures { table.new ≡ released table.old block seat }
{
    if let Some(block) = block {
        table.release(block, seat);
    }
}

/// Takes the latch of the block on which an insert stands now, and gives that of the block on which it
/// stood free, unless the tuple above is on it.
fn hold_anew<O: OpClass>(
    table: &mut PageTable,
    descent: &Descent<O>,
    was: Option<Block>,
    seat: SeatNo,
)
    requires here { IfSome (stand_block descent.now.stand) (λ b. b < length table.old.pages) }
    requires was { IfSome was (λ b. b < length table.old.pages) }
    ensures table { IsButLatches table.old table.new }
    ensures held { IsOpenTo table.old (stand_block descent.now.stand) seat
        → table.new ≡ released (latched table.old (stand_block descent.now.stand) seat) (left_block was (stand_block descent.now.stand) (parent_block descent.now.parent)) seat }
{
    let above = parent_block(descent.parent());
    let left = left_block(was, stand_block(descent.stand()), above);
    latch(table, stand_block(descent.stand()), seat);
    give_free(table, left, seat);
}

/// Settles the latches of an insert after a section that changed pages. Once the row is put all are
/// given free. Else the insert takes that of the block on which it stands now, and gives that of the
/// block on which it stood free, unless the tuple above is on it.
#[inline(always)]
pub(crate) fn settle_latches<O: OpClass>(
    table: &mut PageTable,
    descent: &Descent<O>,
    was: Option<Block>,
    seat: SeatNo,
    out: &InsertOut,
)
    requires here { IfSome (stand_block descent.now.stand) (λ b. b < length table.old.pages) }
    requires above { IfSome (parent_block descent.now.parent) (λ b. b < length table.old.pages) }
    requires was { IfSome was (λ b. b < length table.old.pages) }
    ensures table { IsButLatches table.old table.new }
    ensures settled { Settles table.old table.new descent.now was seat out.now }
{
    match out {
        InsertOut::Descended | InsertOut::Restarted { .. } => {}
        InsertOut::Restructured => hold_anew(table, descent, was, seat),
        InsertOut::Put => release_latches(table, descent, seat),
    }
}
