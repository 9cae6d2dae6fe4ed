ghost use Rattle.std.specs.Prelude.{◌≡◌, ◌<◌, Option, false, length, IfOk, OnOk};
ghost use Rattle.spg_opclass.specs.declared.view.Choice.TheVariants.{Match};
ghost use Rattle.spg_forest.specs.Classes.{down_of};
ghost use Rattle.spg_forest.specs.Shape.{Shape};
ghost use Rattle.spg_page.specs.Reads.{frame_in};
ghost use Rattle.spg_tree.specs.Table.{sheets_of, tuple_at};
ghost use Rattle.spg_tree.specs.Descents.{in_nulls};
ghost use Rattle.spg_descend.specs.Carried.{IsCarried};
ghost use Rattle.spg_descend.specs.Follows.{IsAtInner, tuple_place};
ghost use Rattle.spg_descend.specs.Answers.{IsAnswered};
ghost use Rattle.spg_seats.specs.Descending.{Stands};

use crate::sections::clock::is_at_inner;
use spg_base::{Bytes, Memory, SeatNo};
use spg_descend::{Entered, follow, tuple_place};
use spg_move::add_node;
use spg_opclass::{Choice, OpClass};
use spg_tree::{Descent, PageTable, StepRefused};
use std::alloc::Global;

/// What the class answers for an insert of a key at an inner tuple.
fn answered<O: OpClass>(
    alloc: Global,
    class: &O,
    table: &PageTable,
    descent: &Descent<O>,
) -> Result<Choice, Memory>
    requires { IsAtInner table.now descent.now.stand }
    ensures { IfOk result (λ choice. IsAnswered O.meaning table.now descent.now choice) }
{
    let Some(recon) = descent.recon() else {
        return Err(Memory);
    };
    let at = tuple_place(descent.stand());
    let view = table.page(at.block).view_at(alloc, at.offset)?;
    class.choose(alloc, recon, &view, descent.rest().as_slice())
}

/// The rebuilt value below a node of the inner tuple at which an insert stands. None exactly in the nulls
/// tree.
fn recon_below<O: OpClass>(
    alloc: Global,
    class: &O,
    table: &PageTable,
    descent: &Descent<O>,
    node: u16,
) -> Result<Option<O::Recon>, Memory>
    requires inner { IsAtInner table.now descent.now.stand }
    requires node { node < length (frame_in (tuple_at table.now (tuple_place descent.now.stand))).labels }
    ensures { IfOk result (λ below. below ≡ down_of O.meaning descent.now.recon (frame_in (tuple_at table.now (tuple_place descent.now.stand))) node) }
{
    match descent.recon() {
        None => Ok(None),
        Some(recon) => {
            let at = tuple_place(descent.stand());
            let view = table.page(at.block).view_at(alloc, at.offset)?;
            let below = class.down(alloc, recon, &view, node)?;
            Ok(Some(below))
        }
    }
}

/// Goes down the node that the class has named.
fn follow_to<O: OpClass>(
    alloc: Global,
    class: &O,
    table: &mut PageTable,
    descent: &mut Descent<O>,
    node: u16,
    rest: Bytes,
) -> Result<(), Memory>
    requires shape { Shape O.meaning (sheets_of table.old) }
    requires stands { Stands table.old descent.old }
    requires inner { IsAtInner table.old descent.old.stand }
    requires main { in_nulls descent.old ≡ false }
    requires of_key { (key : Option O.Key) × IsCarried O.meaning (sheets_of table.old) descent.old key }
    requires answer { IsAnswered O.meaning table.old descent.old (Match node rest) }
    ensures shape { OnOk result (Shape O.meaning (sheets_of table.new)) }
    ensures stands { OnOk result (Stands table.new descent.new) }
    ensures of_key { OnOk result ((key : Option O.Key) × IsCarried O.meaning (sheets_of table.new) descent.new key) }
{
    let below = recon_below(alloc, class, table, descent, node)?;
    match follow(table, descent, SeatNo::first(), node, rest, below) {
        Entered::In => Ok(()),
        Entered::Busy { .. } => Err(Memory),
    }
}

/// Goes down the node that the class names at the inner tuple at which an insert of a key stands.
pub(crate) fn follow_named<O: OpClass>(
    alloc: Global,
    class: &O,
    table: &mut PageTable,
    descent: &mut Descent<O>,
) -> Result<(), Memory>
    requires shape { Shape O.meaning (sheets_of table.old) }
    requires stands { Stands table.old descent.old }
    requires of_key { (key : Option O.Key) × IsCarried O.meaning (sheets_of table.old) descent.old key }
    ensures shape { OnOk result (Shape O.meaning (sheets_of table.new)) }
    ensures stands { OnOk result (Stands table.new descent.new) }
    ensures of_key { OnOk result ((key : Option O.Key) × IsCarried O.meaning (sheets_of table.new) descent.new key) }
{
    if descent.is_nulls() {
        return Err(Memory);
    }
    if !is_at_inner(table, descent) {
        return Err(Memory);
    }
    match answered(alloc, class, table, descent)? {
        Choice::Match { node, rest } => follow_to(alloc, class, table, descent, node, rest),
        Choice::Add { .. } | Choice::Split { .. } => Err(Memory),
    }
}

/// Puts the node that the class asks for into the inner tuple at which an insert of a key stands.
/// None where it asks for none.
pub(crate) fn added<O: OpClass>(
    alloc: Global,
    class: &O,
    table: &mut PageTable,
    descent: &mut Descent<O>,
) -> Result<Option<Result<(), StepRefused>>, Memory>
    requires shape { Shape O.meaning (sheets_of table.old) }
    requires stands { Stands table.old descent.old }
    requires of_key { (key : Option O.Key) × IsCarried O.meaning (sheets_of table.old) descent.old key }
{
    if descent.is_nulls() {
        return Ok(None);
    }
    if !is_at_inner(table, descent) {
        return Ok(None);
    }
    match answered(alloc, class, table, descent)? {
        Choice::Add { at, label } => Ok(Some(add_node(
            alloc,
            table,
            descent,
            SeatNo::first(),
            at,
            label,
        ))),
        Choice::Match { .. } | Choice::Split { .. } => Ok(None),
    }
}
