ghost use Rattle.std.specs.Prelude.{◌≡◌, ℕ, Option, option_copied, IfOk, IsErrOf};
ghost use Rattle.spg_forest.specs.Shape.{Shape};
ghost use Rattle.spg_tree.specs.Table.{sheets_of};
ghost use Rattle.spg_tree.specs.declared.stand.Stand.TheVariants.{Start};
ghost use Rattle.spg_tree.specs.declared.stand.StepRefused.TheVariants.{ClockFull};
ghost use Rattle.spg_descend.specs.declared.rule.Rule.TheVariants as rules;
ghost use Rattle.spg_split.specs.Parting.{IsPartedAt};
ghost use Rattle.spg_seats.specs.Descending.{Stands, HoldsIts, ChangesHeld};
ghost use Rattle.spg_seats.specs.Latching.{InsertHolds};
ghost use Rattle.spg_core.specs.Stepping.{MayStep, IsStepOut, MakesAtMostOne};
ghost use Rattle.spg_core.specs.Telling.{IsRuleFor, StepTells, Does};
ghost use Rattle.spg_core.specs.Refusing.{Refuses, FindsNoPage};
ghost use Rattle.spg_core.specs.Guides.{IsGuided};
ghost use Rattle.spg_core.specs.Ends.{TakesOne};
ghost use Rattle.spg_core.specs.Latches.{HoldsAfter};

use crate::answer::InsertOut;
use crate::choose::choose;
use crate::guide::Guide;
use crate::latches::{settle_latches, stand_block};
use spg_base::{Memory, SeatNo};
use spg_descend::{Entered, PutOut, Rule, enter_root, put_leaf, rule_at};
use spg_move::move_chain;
use spg_opclass::{OpClass, Parted, part_at};
use spg_split::{SplitOut, bunch_at, split_leaf};
use spg_tree::{Descent, PageTable, StepRefused};
use std::alloc::Global;

/// Enters the root.
#[inline(always)]
fn begin<O: OpClass>(table: &mut PageTable, descent: &mut Descent<O>, seat: SeatNo) -> InsertOut
    requires shape { Shape O.meaning (sheets_of table.old) }
    requires start { descent.old.stand ≡ Start }
    requires stands { Stands table.old descent.old }
    ensures does { Does O.meaning table.old table.new descent.old descent.new seat result }
    ensures found { FindsNoPage O.meaning table.old descent.old seat → ⊥ }
{
    let _count = table.page_count();
    match enter_root(table, descent, seat) {
        Entered::In => InsertOut::Descended,
        Entered::Busy { block, by } => InsertOut::Restarted { block, by },
    }
}

/// Puts the leaf of an insert where it fits.
#[inline(always)]
fn put<O: OpClass>(
    alloc: Global,
    table: &mut PageTable,
    descent: &Descent<O>,
    seat: SeatNo,
) -> Result<InsertOut, StepRefused>
    requires can { MayStep O.meaning table.old descent.now }
    requires rule { IsRuleFor table.old descent.now rules.Put }
    ensures does { IfOk result (λ out. Does O.meaning table.old table.new descent.now descent.now seat out) }
    ensures clock { IsErrOf result ClockFull → ⊥ }
    ensures refused { Refuses O.meaning table.old table.new descent.now descent.now seat result }
{
    match put_leaf(alloc, table, descent, seat)? {
        PutOut::Put => Ok(InsertOut::Put),
        PutOut::NoRoom => unreachable!(),
    }
}

/// Moves the short chain of an insert to another page, with the insert's leaf behind its head.
fn move_away<O: OpClass>(
    alloc: Global,
    table: &mut PageTable,
    descent: &Descent<O>,
    seat: SeatNo,
) -> Result<InsertOut, StepRefused>
    requires can { MayStep O.meaning table.old descent.now }
    requires rule { IsRuleFor table.old descent.now rules.Move }
    ensures does { IfOk result (λ out. Does O.meaning table.old table.new descent.now descent.now seat out) }
    ensures refused { Refuses O.meaning table.old table.new descent.now descent.now seat result }
{
    move_chain(alloc, table, descent, seat)?;
    Ok(InsertOut::Put)
}

/// How the class divides the leaves where an insert stands. None exactly where they are nulls.
fn part<O: OpClass>(
    alloc: Global,
    class: &O,
    table: &PageTable,
    descent: &Descent<O>,
) -> Result<Option<Parted<O>>, Memory>
    requires can { MayStep O.meaning table.now descent.now }
    requires rule { IsRuleFor table.now descent.now rules.Divide }
    ensures { IfOk result (λ parted. IsPartedAt table.now descent.now parted) }
{
    match bunch_at(alloc, table, descent)? {
        None => Ok(None),
        Some(bunch) => Ok(Some(part_at(alloc, class, bunch)?)),
    }
}

/// Divides the leaves where an insert stands, which have no room for its own leaf and may not move, as
/// the class divided a copy of their values.
fn divide_as<O: OpClass>(
    alloc: Global,
    table: &mut PageTable,
    descent: &mut Descent<O>,
    seat: SeatNo,
    parted: Option<&Parted<O>>,
) -> Result<InsertOut, StepRefused>
    requires can { MayStep O.meaning table.old descent.old }
    requires rule { IsRuleFor table.old descent.old rules.Divide }
    requires parted { IsPartedAt table.old descent.old (option_copied parted) }
    ensures does { IfOk result (λ out. Does O.meaning table.old table.new descent.old descent.new seat out) }
    ensures refused { Refuses O.meaning table.old table.new descent.old descent.new seat result }
{
    match split_leaf(alloc, table, descent, seat, parted)? {
        SplitOut::Put => Ok(InsertOut::Put),
        SplitOut::LeftOut => Ok(InsertOut::Restructured),
    }
}

/// Divides those leaves as the guide decides. Nulls are divided unasked.
fn divide<O: OpClass>(
    alloc: Global,
    table: &mut PageTable,
    descent: &mut Descent<O>,
    seat: SeatNo,
    guide: Guide<'_, O>,
) -> Result<InsertOut, StepRefused>
    requires can { MayStep O.meaning table.old descent.old }
    requires rule { IsRuleFor table.old descent.old rules.Divide }
    requires guided { IsGuided O.meaning table.old descent.old guide }
    ensures does { IfOk result (λ out. Does O.meaning table.old table.new descent.old descent.new seat out) }
    ensures refused { Refuses O.meaning table.old table.new descent.old descent.new seat result }
{
    match guide {
        Guide::Class(class) => {
            let parted = part(alloc, class, table, descent)?;
            divide_as(alloc, table, descent, seat, parted.as_ref())
        }
        Guide::Chosen(_) => unreachable!(),
        Guide::Parted(parted) => divide_as(alloc, table, descent, seat, parted),
    }
}

/// What an insert does where it stands, as its guide decides. Where it changed pages its latches are not
/// settled yet.
#[inline(always)]
fn section<O: OpClass>(
    alloc: Global,
    table: &mut PageTable,
    descent: &mut Descent<O>,
    seat: SeatNo,
    guide: Guide<'_, O>,
) -> Result<InsertOut, StepRefused>
    requires can { MayStep O.meaning table.old descent.old }
    requires guided { IsGuided O.meaning table.old descent.old guide }
    ensures does { IfOk result (λ out. Does O.meaning table.old table.new descent.old descent.new seat out) }
    ensures refused { Refuses O.meaning table.old table.new descent.old descent.new seat result }
{
    match rule_at(table, descent) {
        Rule::Start => Ok(begin(table, descent, seat)),
        Rule::Choose => choose(alloc, table, descent, seat, guide),
        Rule::Put => put(alloc, table, descent, seat),
        Rule::Move => move_away(alloc, table, descent, seat),
        Rule::Divide => divide(alloc, table, descent, seat, guide),
    }
}

/// The next section of an open insert as its guide decides, which is one of those that may come yet.
/// After a refusal table and insert are as they were.
#[inline(always)]
pub(crate) fn step<O: OpClass>(
    alloc: Global,
    table: &mut PageTable,
    descent: &mut Descent<O>,
    seat: SeatNo,
    guide: Guide<'_, O>,
) -> Result<InsertOut, StepRefused>
    requires can { MayStep O.meaning table.old descent.old }
    requires guided { IsGuided O.meaning table.old descent.old guide }
    ensures ok { IfOk result (λ out. IsStepOut O.meaning table.old table.new descent.old descent.new seat out) }
    ensures told { IfOk result (λ out. StepTells O.meaning table.old table.new descent.old descent.new seat out) }
    ensures latches { IfOk result (λ out. (rest : ℕ → Option ℕ) → InsertHolds table.old seat rest descent.old → HoldsAfter table.new seat rest descent.new out) }
    ensures within { HoldsIts table.old seat descent.old → ChangesHeld table.old table.new seat }
    ensures ends { IfOk result (λ out. TakesOne O.meaning table.old table.new descent.old descent.new out) }
    ensures makes { IfOk result (λ _. MakesAtMostOne table.old table.new) }
    ensures refused { Refuses O.meaning table.old table.new descent.old descent.new seat result }
{
    let was = stand_block(descent.stand());
    let out = section(alloc, table, descent, seat, guide)?;
    let _count = table.page_count();
    settle_latches(table, descent, was, seat, &out);
    Ok(out)
}
