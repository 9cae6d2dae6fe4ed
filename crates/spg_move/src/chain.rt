ghost use Rattle.std.specs.Prelude.{◌≡◌, ◌<◌, ◌+◌, ◌^◌, ◌↔◌, Option, Some as Just, OnOk, OnErr, IsErrOf};
ghost use Rattle.spg_forest.specs.Tuples.{Live};
ghost use Rattle.spg_forest.specs.Shape.{Shape};
ghost use Rattle.spg_forest.specs.Exact.{IsExact};
ghost use Rattle.spg_tree.specs.Table.{sheets_of};
ghost use Rattle.spg_tree.specs.Pick.{IsFull};
ghost use Rattle.spg_tree.specs.declared.stand.Stand.TheVariants.{At};
ghost use Rattle.spg_tree.specs.declared.stand.StepRefused.TheVariants.{IndexFull, ClockFull};
ghost use Rattle.spg_descend.specs.Carried.{carried, IsCarried};
ghost use Rattle.spg_descend.specs.Held.{TouchesFree};
ghost use Rattle.spg_descend.specs.Puts.{Fits};
ghost use Rattle.spg_descend.specs.Rules.{MayMove};
ghost use Rattle.spg_descend.specs.Below.{IsAtChain, IsTicked};
ghost use Rattle.spg_descend.specs.Makes.{MakesNone};
ghost use Rattle.spg_move.specs.Moves.{MovesCarried, carried_want};
ghost use Rattle.spg_move.specs.Tables.{MovesTable};

use crate::moving::{chain_tuples, write_chain};
use spg_base::{Memory, Place, SeatNo};
use spg_chain::{bytes_of, leaf_tuple};
use spg_opclass::OpClass;
use spg_tree::{Descent, PageTable, Stand, StepRefused, Want};
use std::alloc::Global;

/// Moves the short chain at a place, to which a node of the tuple above leads, with the insert's leaf
/// behind its head.
fn move_from<O: OpClass>(
    alloc: Global,
    table: &mut PageTable,
    descent: &Descent<O>,
    at: Place,
    parent: Place,
    node: u16,
    seat: SeatNo,
) -> Result<(), StepRefused>
    requires shape { Shape O.meaning (sheets_of table.old) }
    requires stands { descent.now.stand ≡ At at }
    requires above { descent.now.parent ≡ Just (parent, node) }
    requires spot { IsAtChain table.old descent.now }
    requires short { MayMove table.old descent.now.stand (Live (carried descent.now) 0) }
    requires clock { table.old.clock + 1 < 2 ^ 48 }
    ensures ok { OnOk result (MovesCarried O.meaning table.old table.new descent.now) }
    ensures held { OnOk result (TouchesFree table.old table.new descent.now seat) }
    ensures ticked { OnOk result (IsTicked table.old table.new) }
    ensures makes { OnOk result (MakesNone table.old table.new) }
    ensures table { OnOk result (MovesTable table.old table.new descent.now seat) }
    ensures exact { OnOk result (IsExact (sheets_of table.old) (sheets_of table.new) table.new.touched) }
    ensures full { IsErrOf result IndexFull → IsFull table.old (carried_want table.old descent.now seat) }
    ensures not_full { OnOk result (IsFull table.old (carried_want table.old descent.now seat) → ⊥) }
    ensures clock { IsErrOf result ClockFull → ⊥ }
    ensures err { OnErr result (table.new ≡ table.old) }
{
    let leaves = chain_tuples(alloc, table.page(at.block), at.offset)?;
    let new = leaf_tuple(alloc, descent.row(), descent.rest().as_slice())?;
    let need = bytes_of(leaves.as_slice()) + new.size() as usize + 4;
    let count = leaves.len() + 1;
    let nulls = descent.is_nulls();
    let want = Want::leaf(nulls, need as u16, count as u16, seat).avoiding(at.block);
    let block = table.pick(alloc, &want)?;
    write_chain(table, block, at, parent, node, leaves.as_slice(), &new);
    Ok(())
}

/// Moves the short chain at which an insert stands, with the insert's leaf behind its head, to one other
/// leaf page, and leaves a redirect (docs/ALGORITHM.md, Move of a chain). A dead tuple is a chain of no
/// tuples. `ClockFull` comes exactly where the clock is 2^48 - 1, before a page is picked; `IndexFull`
/// exactly where the pick of a leaf page for the chain with its new leaf, by this seat and not on the old
/// block, needs a new page and there may be none, unless memory is short before. After a refusal the
/// table is as it was.
pub fn move_chain<O: OpClass>(
    alloc: Global,
    table: &mut PageTable,
    descent: &Descent<O>,
    seat: SeatNo,
) -> Result<(), StepRefused>
    requires shape { Shape O.meaning (sheets_of table.old) }
    requires spot { IsAtChain table.old descent.now }
    requires of_key { (key : Option O.Key) × IsCarried O.meaning (sheets_of table.old) descent.now key }
    requires no_room { Fits table.old descent.now.stand (Live (carried descent.now) 0) → ⊥ }
    requires short { MayMove table.old descent.now.stand (Live (carried descent.now) 0) }
    ensures ok { OnOk result (MovesCarried O.meaning table.old table.new descent.now) }
    ensures held { OnOk result (TouchesFree table.old table.new descent.now seat) }
    ensures ticked { OnOk result (IsTicked table.old table.new) }
    ensures makes { OnOk result (MakesNone table.old table.new) }
    ensures table { OnOk result (MovesTable table.old table.new descent.now seat) }
    ensures exact { OnOk result (IsExact (sheets_of table.old) (sheets_of table.new) table.new.touched) }
    ensures full { IsErrOf result IndexFull → IsFull table.old (carried_want table.old descent.now seat) }
    ensures not_full { OnOk result (IsFull table.old (carried_want table.old descent.now seat) → ⊥) }
    ensures clock { IsErrOf result ClockFull → table.old.clock + 1 ≡ 2 ^ 48 }
    ensures clock_first { table.old.clock + 1 ≡ 2 ^ 48 → IsErrOf result ClockFull }
    ensures err { OnErr result (table.new ≡ table.old) }
{
    if table.clock() + 1 == 1 << 48 {
        return Err(StepRefused::ClockFull);
    }
    match (descent.stand(), descent.parent()) {
        (Stand::At(at), Some((parent, node))) => {
            move_from(alloc, table, descent, at, parent, node, seat)
        }
        _ => unreachable!(),
    }
}
