ghost use Rattle.std.specs.Prelude.{◌≡◌, false, Option, OnOk, OnErr, IsErrOf};
ghost use Rattle.spg_opclass.specs.declared.view.Choice.TheVariants.{Split};
ghost use Rattle.spg_forest.specs.Shape.{Shape};
ghost use Rattle.spg_forest.specs.Exact.{IsExact};
ghost use Rattle.spg_tree.specs.Table.{sheets_of};
ghost use Rattle.spg_tree.specs.Pick.{IsFull};
ghost use Rattle.spg_tree.specs.Descents.{in_nulls};
ghost use Rattle.spg_tree.specs.declared.stand.StepRefused.TheVariants.{IndexFull, ClockFull};
ghost use Rattle.spg_descend.specs.Carried.{IsCarried};
ghost use Rattle.spg_descend.specs.Follows.{tuple_place};
ghost use Rattle.spg_descend.specs.Held.{TouchesFree};
ghost use Rattle.spg_descend.specs.Answers.{IsAnswered};
ghost use Rattle.spg_move.specs.Answers.{IsInnerOf};
ghost use Rattle.spg_move.specs.Splits.{PartsTuple, upper_at, lower_at, lower_want_at, fits_beside_at};
ghost use Rattle.spg_move.specs.Splitting.{IsParted};

use crate::split_pages::part_tuple;
use crate::split_tuples::{lower_tuple, upper_tuple};
use spg_base::{Bytes, Labels, SeatNo};
use spg_descend::tuple_place;
use spg_opclass::OpClass;
use spg_tree::{Descent, PageTable, StepRefused};
use std::alloc::Global;

/// Splits the inner tuple at which an insert stands in two. The upper tuple, with the prefix and the
/// labels given, replaces it in place; its node `child` leads to the lower tuple, which has the rest of
/// the old one and stands beside it or on a picked page (docs/ALGORITHM.md, Added node, split tuple).
/// The insert stays where it stands, and the rise is noted. The clock stays, so `ClockFull` never comes.
/// `IndexFull` comes exactly where the lower tuple does not fit beside the upper one on a page that is
/// no root, and the pick of a page for it needs a new one and there may be none, unless memory is short
/// before. After a refusal table and insert are as they were.
pub fn split_tuple<O: OpClass>(
    alloc: Global,
    table: &mut PageTable,
    descent: &mut Descent<O>,
    seat: SeatNo,
    upper_prefix: &Bytes,
    upper_labels: &Labels,
    child: u16,
    lower_prefix: &Bytes,
) -> Result<(), StepRefused>
    requires shape { Shape O.meaning (sheets_of table.old) }
    requires spot { IsInnerOf table.old (in_nulls descent.old) descent.old.stand descent.old.parent }
    requires main { in_nulls descent.old ≡ false }
    requires of_key { (key : Option O.Key) × IsCarried O.meaning (sheets_of table.old) descent.old key }
    requires answer { IsAnswered O.meaning table.old descent.old (Split upper_prefix.now upper_labels.now child lower_prefix.now) }
    ensures ok { OnOk result (PartsTuple O.meaning table.old table.new descent.old descent.new upper_prefix.now upper_labels.now child) }
    ensures held { OnOk result (TouchesFree table.old table.new descent.old seat) }
    ensures table { OnOk result (IsParted table.old table.new (tuple_place descent.old.stand) child seat (upper_at upper_prefix.now upper_labels.now) (lower_at table.old descent.old lower_prefix.now)) }
    ensures exact { OnOk result (IsExact (sheets_of table.old) (sheets_of table.new) table.new.touched) }
    ensures full { IsErrOf result IndexFull → (fits_beside_at table.old descent.old upper_prefix.now upper_labels.now lower_prefix.now ≡ false) × IsFull table.old (lower_want_at table.old descent.old lower_prefix.now seat) }
    ensures not_full { OnOk result (fits_beside_at table.old descent.old upper_prefix.now upper_labels.now lower_prefix.now ≡ false → IsFull table.old (lower_want_at table.old descent.old lower_prefix.now seat) → ⊥) }
    ensures clock { IsErrOf result ClockFull → ⊥ }
    ensures err { OnErr result (table.new ≡ table.old) }
    ensures err_descent { OnErr result (descent.new ≡ descent.old) }
{
    let at = tuple_place(descent.stand());
    let upper = upper_tuple(alloc, upper_prefix, upper_labels)?;
    let lower = lower_tuple(alloc, table.page(at.block), at.offset, lower_prefix)?;
    part_tuple(alloc, table, at, child, &upper, &lower, seat)?;
    descent.note_rise();
    Ok(())
}
