ghost use Rattle.std.specs.Prelude.{◌≡◌, if◌then◌else◌, IfOk};
ghost use Rattle.spg_descend.specs.Follows.{IsAtInner};
ghost use Rattle.spg_core.specs.Stepping.{MayStep};
ghost use Rattle.spg_core.specs.Telling.{Does};
ghost use Rattle.spg_core.specs.Refusing.{Refuses};
ghost use Rattle.spg_core.specs.Guides.{IsSpottedAt, IsGuided};

use crate::answer::InsertOut;
use crate::guide::Guide;
use crate::inner::{go_by_counter, go_down, split, widen};
use spg_base::{Same, SeatNo};
use spg_descend::tuple_place;
use spg_opclass::{Choice, Chosen, OpClass};
use spg_tree::{Descent, PageTable, StepRefused};
use std::alloc::Global;

/// The node that is followed where the class answers this one: at an all-the-same tuple it is the
/// one that the rotating counter names.
fn named(turn: u8, all_same: bool, node: u16) -> u16
    ensures { result ≡ (if all_same then turn else node) }
{
    if all_same { u16::from(turn) } else { node }
}

/// Does what the class answers at the inner tuple where an insert stands. It goes down in the nulls
/// tree unasked.
#[inline(always)]
fn ask<O: OpClass>(
    alloc: Global,
    class: &O,
    table: &mut PageTable,
    descent: &mut Descent<O>,
    seat: SeatNo,
) -> Result<InsertOut, StepRefused>
    requires can { MayStep O.meaning table.old descent.old }
    requires inner { IsAtInner table.old descent.old.stand }
    ensures does { IfOk result (λ out. Does O.meaning table.old table.new descent.old descent.new seat out) }
    ensures refused { Refuses O.meaning table.old table.new descent.old descent.new seat result }
{
    let Some(recon) = descent.recon() else {
        return Ok(go_by_counter(alloc, table, descent, seat));
    };
    let at = tuple_place(descent.stand());
    let tuple = table.page(at.block).inner_at(at.offset);
    match class.choose_in_place(alloc, recon, &tuple, descent.rest().as_slice())? {
        Choice::Match { node, rest } => {
            let node = named(table.counter(), tuple.all_same, node);
            let by_turn = tuple.all_same;
            let below = class.down_in_place(alloc, recon, &tuple, node)?;
            Ok(go_down(table, descent, seat, node, rest, by_turn, Some(below)))
        }
        Choice::Add { at, label } => widen(alloc, table, descent, seat, at, label),
        Choice::Split {
            upper_prefix,
            upper_labels,
            child,
            lower_prefix,
        } => split(
            alloc,
            table,
            descent,
            seat,
            &upper_prefix,
            &upper_labels,
            child,
            &lower_prefix,
        ),
    }
}

/// Does what the class chose for a copy of the inner tuple where an insert stands.
fn do_chosen<O: OpClass>(
    alloc: Global,
    table: &mut PageTable,
    descent: &mut Descent<O>,
    seat: SeatNo,
    chosen: &Chosen<O>,
) -> Result<InsertOut, StepRefused>
    requires can { MayStep O.meaning table.old descent.old }
    requires spotted { IsSpottedAt table.old descent.old chosen.now }
    ensures does { IfOk result (λ out. Does O.meaning table.old table.new descent.old descent.new seat out) }
    ensures refused { Refuses O.meaning table.old table.new descent.old descent.new seat result }
{
    match chosen.choice() {
        Choice::Match { node, rest } => {
            let turn = table.counter();
            let all_same = chosen.spotted().tuple().all_same;
            let at = if all_same { usize::from(turn) } else { 0 };
            let below = chosen.recons().as_slice()[at].copy()?;
            let rest = rest.copy()?;
            let node = named(turn, all_same, *node);
            Ok(go_down(table, descent, seat, node, rest, all_same, Some(below)))
        }
        Choice::Add { at, label } => widen(alloc, table, descent, seat, *at, *label),
        Choice::Split {
            upper_prefix,
            upper_labels,
            child,
            lower_prefix,
        } => split(
            alloc,
            table,
            descent,
            seat,
            upper_prefix,
            upper_labels,
            *child,
            lower_prefix,
        ),
    }
}

/// What an insert does at an inner tuple, as its guide decides: it goes down a node, puts one in, or
/// splits the tuple. The node that is followed at an all-the-same tuple, and in the nulls tree, is the
/// one that the rotating counter names.
#[inline(always)]
pub(crate) fn choose<O: OpClass>(
    alloc: Global,
    table: &mut PageTable,
    descent: &mut Descent<O>,
    seat: SeatNo,
    guide: Guide<'_, O>,
) -> Result<InsertOut, StepRefused>
    requires can { MayStep O.meaning table.old descent.old }
    requires inner { IsAtInner table.old descent.old.stand }
    requires guided { IsGuided O.meaning table.old descent.old guide }
    ensures does { IfOk result (λ out. Does O.meaning table.old table.new descent.old descent.new seat out) }
    ensures refused { Refuses O.meaning table.old table.new descent.old descent.new seat result }
{
    match guide {
        Guide::Class(class) => ask(alloc, class, table, descent, seat),
        Guide::Chosen(chosen) => do_chosen(alloc, table, descent, seat, chosen),
        Guide::Parted(_) => Ok(go_by_counter(alloc, table, descent, seat)),
    }
}
