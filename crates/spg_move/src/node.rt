ghost use Rattle.std.specs.Prelude.{◌≡◌, ◌⊎◌, ◌≤◌, ◌+◌, ◌^◌, false, Option, OnOk, IfOk, OnErr, IsErrOf};
ghost use Rattle.spg_opclass.specs.declared.view.Choice.TheVariants.{Add};
ghost use Rattle.spg_forest.specs.Sheets.{size_of};
ghost use Rattle.spg_forest.specs.Shape.{Shape};
ghost use Rattle.spg_forest.specs.Exact.{IsExact};
ghost use Rattle.spg_tree.specs.Table.{sheets_of, tuples_at};
ghost use Rattle.spg_tree.specs.Pick.{IsFull};
ghost use Rattle.spg_tree.specs.Descents.{in_nulls, placed, with_node, IsParent};
ghost use Rattle.spg_tree.specs.declared.stand.Stand.TheVariants.{At};
ghost use Rattle.spg_tree.specs.declared.stand.StepRefused.TheVariants.{IndexFull, ClockFull, Memory};
ghost use Rattle.spg_descend.specs.Carried.{IsCarried};
ghost use Rattle.spg_descend.specs.Follows.{tuple_place};
ghost use Rattle.spg_descend.specs.Held.{TouchesFree, IsFreeHome, StandsFree};
ghost use Rattle.spg_descend.specs.Answers.{IsAnswered};
ghost use Rattle.spg_move.specs.Answers.{IsInnerOf};
ghost use Rattle.spg_move.specs.Nodes.{IsNodeAdded, FitsWider, wider_want};
ghost use Rattle.spg_move.specs.Tables.{NodeTable};
ghost use Rattle.spg_move.specs.Widening.{node_want, IsShiftedFrom};
ghost use Rattle.spg_tree.specs.Writes.{FitsInPlace};

use crate::node_tuple::longer_tuple;
use crate::node_write::{fits_in_place, shift, widen_here};
use spg_base::{Place, SeatNo};
use spg_descend::tuple_place;
use spg_opclass::OpClass;
use spg_page::TupleBytes;
use spg_tree::{Descent, PageTable, Stand, StepRefused};
use std::alloc::Global;

/// Moves the longer tuple to another page, and tells where it is then.
fn shift_tuple<O: OpClass>(
    alloc: Global,
    table: &mut PageTable,
    descent: &Descent<O>,
    longer: &TupleBytes,
    seat: SeatNo,
) -> Result<Place, StepRefused>
    requires shape { Shape O.meaning (sheets_of table.old) }
    requires spot { IsInnerOf table.old (in_nulls descent.now) descent.now.stand descent.now.parent }
    requires size { size_of longer.now ≤ 8156 }
    requires no_room { FitsInPlace (tuples_at table.old (tuple_place descent.now.stand).block) (tuple_place descent.now.stand).offset longer.now → ⊥ }
    ensures ok { IfOk result (λ to. IsShiftedFrom table.old table.new descent.now longer.now seat to) }
    ensures held { OnOk result (TouchesFree table.old table.new descent.now seat) }
    ensures home { IfOk result (λ to. IsFreeHome table.old table.new descent.now.parent to.block seat) }
    ensures full { IsErrOf result IndexFull → IsFull table.old (node_want (in_nulls descent.now) (tuple_place descent.now.stand).block (size_of longer.now) seat) }
    ensures clock { IsErrOf result ClockFull → table.old.clock + 1 ≡ 2 ^ 48 }
    ensures clock_first { table.old.clock + 1 ≡ 2 ^ 48 → IsErrOf result ClockFull }
    ensures err { OnErr result (table.new ≡ table.old) }
{
    if table.clock() + 1 == 1 << 48 {
        return Err(StepRefused::ClockFull);
    }
    match (descent.stand(), descent.parent()) {
        (Stand::At(at), Some((parent, node))) => shift(
            alloc,
            table,
            descent.is_nulls(),
            &at,
            &parent,
            node,
            longer,
            seat,
        ),
        _ => unreachable!(),
    }
}

/// Notes that the tuple at which an insert stands has one more node, and is elsewhere.
fn note_shift<O: OpClass>(descent: &mut Descent<O>, to: Place)
    requires { IsParent (At to) descent.old.parent }
    ensures { descent.new ≡ with_node (placed descent.old (At to) descent.old.parent) }
{
    descent.place(Stand::At(to), descent.parent());
    descent.note_node();
}

/// Puts a node with this label and an empty downlink into the inner tuple at which an insert stands, at
/// a position from 0 to the number of nodes. Where the longer tuple does not fit in its place, which it
/// always does at a root, it goes to a picked inner page of its old parity, and the insert stands there
/// (docs/ALGORITHM.md, Added node, split tuple). The insert notes that it has added a node.
/// `ClockFull` comes exactly where it does not fit and the clock is 2^48 - 1, before a page is picked;
/// `IndexFull` exactly where it does not fit and the pick of a page needs a new one and there may be
/// none, unless memory is short before. After a refusal table and insert are as they were.
pub fn add_node<O: OpClass>(
    alloc: Global,
    table: &mut PageTable,
    descent: &mut Descent<O>,
    seat: SeatNo,
    at: u16,
    label: i16,
) -> Result<(), StepRefused>
    requires shape { Shape O.meaning (sheets_of table.old) }
    requires spot { IsInnerOf table.old (in_nulls descent.old) descent.old.stand descent.old.parent }
    requires main { in_nulls descent.old ≡ false }
    requires of_key { (key : Option O.Key) × IsCarried O.meaning (sheets_of table.old) descent.old key }
    requires answer { IsAnswered O.meaning table.old descent.old (Add at label) }
    ensures ok { OnOk result (IsNodeAdded O.meaning table.old table.new descent.old descent.new at label) }
    ensures held { OnOk result (TouchesFree table.old table.new descent.old seat) }
    ensures stands { OnOk result (StandsFree table.old table.new descent.old descent.new seat) }
    ensures table { OnOk result (NodeTable table.old table.new descent.old descent.new at label seat) }
    ensures exact { OnOk result (IsExact (sheets_of table.old) (sheets_of table.new) table.new.touched) }
    ensures full { IsErrOf result IndexFull → (FitsWider table.old descent.old at label → ⊥) × IsFull table.old (wider_want table.old descent.old at label seat) }
    ensures not_full { OnOk result ((FitsWider table.old descent.old at label → ⊥) → IsFull table.old (wider_want table.old descent.old at label seat) → ⊥) }
    ensures clock { IsErrOf result ClockFull → (FitsWider table.old descent.old at label → ⊥) × (table.old.clock + 1 ≡ 2 ^ 48) }
    ensures clock_first { (FitsWider table.old descent.old at label → ⊥) → table.old.clock + 1 ≡ 2 ^ 48 → IsErrOf result ClockFull ⊎ IsErrOf result Memory }
    ensures err { OnErr result (table.new ≡ table.old) }
    ensures err_descent { OnErr result (descent.new ≡ descent.old) }
{
    let here = tuple_place(descent.stand());
    let longer = longer_tuple(alloc, table.page(here.block), here.offset, at, label)?;
    if fits_in_place(table.page(here.block), here.offset, &longer) {
        widen_here(table, &here, &longer);
        descent.note_node();
        return Ok(());
    }
    let to = shift_tuple(alloc, table, descent, &longer, seat)?;
    note_shift(descent, to);
    Ok(())
}
