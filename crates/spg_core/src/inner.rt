ghost use Rattle.std.specs.Prelude.{◌≡◌, Option, false, None as Nil, IfOk};
ghost use Rattle.spg_opclass.specs.declared.view.Choice.TheVariants.{Add, Split};
ghost use Rattle.spg_tree.specs.Descents.{in_nulls};
ghost use Rattle.spg_descend.specs.Answers.{IsAnswered};
ghost use Rattle.spg_descend.specs.Follows.{IsAtInner};
ghost use Rattle.spg_core.specs.Stepping.{MayStep, IsToFollow};
ghost use Rattle.spg_core.specs.Telling.{Does};
ghost use Rattle.spg_core.specs.Refusing.{Refuses, FindsNoPage};

use crate::answer::InsertOut;
use spg_base::{Bytes, Labels, SeatNo};
use spg_descend::{Entered, follow};
use spg_move::{add_node, split_tuple};
use spg_opclass::OpClass;
use spg_tree::{Descent, PageTable, StepRefused};
use std::alloc::Global;

/// Goes down a node of the inner tuple at which an insert is. It takes no memory.
#[inline(always)]
pub(crate) fn go_down<O: OpClass>(
    table: &mut PageTable,
    descent: &mut Descent<O>,
    seat: SeatNo,
    node: u16,
    rest: Bytes,
    by_turn: bool,
    below: Option<O::Recon>,
) -> InsertOut
    requires can { MayStep O.meaning table.old descent.old }
    requires inner { IsAtInner table.old descent.old.stand }
    requires chosen { IsToFollow O.meaning table.old descent.old node rest by_turn below }
    ensures does { Does O.meaning table.old table.new descent.old descent.new seat result }
    ensures found { FindsNoPage O.meaning table.old descent.old seat → ⊥ }
{
    let _count = table.page_count();
    let entered = follow(table, descent, seat, node, rest, below);
    if by_turn {
        table.turn_counter();
    }
    match entered {
        Entered::In => InsertOut::Descended,
        Entered::Busy { block, by } => InsertOut::Restarted { block, by },
    }
}

/// Goes down the node that the rotating counter names, in the nulls tree. It takes no memory.
pub(crate) fn go_by_counter<O: OpClass>(
    alloc: Global,
    table: &mut PageTable,
    descent: &mut Descent<O>,
    seat: SeatNo,
) -> InsertOut
    requires can { MayStep O.meaning table.old descent.old }
    requires inner { IsAtInner table.old descent.old.stand }
    requires nulls { descent.old.recon ≡ Nil }
    ensures does { Does O.meaning table.old table.new descent.old descent.new seat result }
    ensures found { FindsNoPage O.meaning table.old descent.old seat → ⊥ }
{
    let node = u16::from(table.counter());
    go_down(table, descent, seat, node, Bytes::new(alloc), true, None)
}

/// Puts a node into the inner tuple at which an insert is.
pub(crate) fn widen<O: OpClass>(
    alloc: Global,
    table: &mut PageTable,
    descent: &mut Descent<O>,
    seat: SeatNo,
    at: u16,
    label: i16,
) -> Result<InsertOut, StepRefused>
    requires can { MayStep O.meaning table.old descent.old }
    requires inner { IsAtInner table.old descent.old.stand }
    requires main { in_nulls descent.old ≡ false }
    requires answer { IsAnswered O.meaning table.old descent.old (Add at label) }
    ensures does { IfOk result (λ out. Does O.meaning table.old table.new descent.old descent.new seat out) }
    ensures refused { Refuses O.meaning table.old table.new descent.old descent.new seat result }
{
    add_node(alloc, table, descent, seat, at, label)?;
    Ok(InsertOut::Restructured)
}

/// Splits the inner tuple at which an insert is in two.
pub(crate) fn split<O: OpClass>(
    alloc: Global,
    table: &mut PageTable,
    descent: &mut Descent<O>,
    seat: SeatNo,
    upper_prefix: &Bytes,
    upper_labels: &Labels,
    child: u16,
    lower_prefix: &Bytes,
) -> Result<InsertOut, StepRefused>
    requires can { MayStep O.meaning table.old descent.old }
    requires inner { IsAtInner table.old descent.old.stand }
    requires main { in_nulls descent.old ≡ false }
    requires answer { IsAnswered O.meaning table.old descent.old (Split upper_prefix.now upper_labels.now child lower_prefix.now) }
    ensures does { IfOk result (λ out. Does O.meaning table.old table.new descent.old descent.new seat out) }
    ensures refused { Refuses O.meaning table.old table.new descent.old descent.new seat result }
{
    split_tuple(
        alloc,
        table,
        descent,
        seat,
        upper_prefix,
        upper_labels,
        child,
        lower_prefix,
    )?;
    Ok(InsertOut::Restructured)
}
