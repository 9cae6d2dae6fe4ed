ghost use Rattle.std.specs.Prelude.{◌≡◌, ◌↔◌, Some as Just, false, IfOk, IsTrue};
ghost use Rattle.spg_tree.specs.Descents.{in_nulls};
ghost use Rattle.spg_descend.specs.Follows.{IsAtInner};
ghost use Rattle.spg_core.specs.Stepping.{MayStep};
ghost use Rattle.spg_core.specs.Guides.{IsSpottedAt, IsBunchAt, IsFound};

use crate::comparing::{is_cut, is_spot};
use spg_base::{Memory, Same};
use spg_descend::{Rule, rule_at, tuple_place};
use spg_opclass::{Bunch, Chosen, OpClass, Parted, Spotted};
use spg_split::bunch_at;
use spg_tree::{Descent, PageTable};
use std::alloc::Global;

/// What a look at an insert finds.
#[derive(Drop)]
pub(crate) enum Found<O: OpClass> {
    /// The class has no say.
    Unasked,
    /// The insert stands at an inner tuple of the main tree. This is a copy of it.
    Choose(Spotted<O>),
    /// Leaves of the main tree are to be divided. This is a copy of their values.
    Part(Bunch<O>),
}

/// A copy of the inner tuple of the main tree at which an insert stands.
fn spot<O: OpClass>(
    alloc: Global,
    table: &PageTable,
    descent: &Descent<O>,
    recon: &O::Recon,
) -> Result<Spotted<O>, Memory>
    requires can { MayStep O.meaning table.now descent.now }
    requires inner { IsAtInner table.now descent.now.stand }
    requires recon { descent.now.recon ≡ Just recon.now }
    requires main { in_nulls descent.now ≡ false }
    ensures { IfOk result (λ spotted. IsSpottedAt table.now descent.now spotted) }
{
    let at = tuple_place(descent.stand());
    let tuple = table.page(at.block).view_at(alloc, at.offset)?;
    Ok(Spotted::new(recon.copy()?, tuple, descent.rest().copy()?))
}

/// Looks at an insert.
pub(crate) fn look_at<O: OpClass>(
    alloc: Global,
    table: &PageTable,
    descent: &Descent<O>,
) -> Result<Found<O>, Memory>
    requires can { MayStep O.meaning table.now descent.now }
    ensures { IfOk result (λ found. IsFound O.meaning table.now descent.now found) }
{
    match rule_at(table, descent) {
        Rule::Start | Rule::Put | Rule::Move => Ok(Found::Unasked),
        Rule::Choose => match descent.recon() {
            None => Ok(Found::Unasked),
            Some(recon) => Ok(Found::Choose(spot(alloc, table, descent, recon)?)),
        },
        Rule::Divide => match bunch_at(alloc, table, descent)? {
            None => Ok(Found::Unasked),
            Some(bunch) => Ok(Found::Part(bunch)),
        },
    }
}

/// Whether a look at the insert would give the copy for which the class chose. It compares the tuple
/// where it stands, and takes no memory.
pub(crate) fn is_spotted<O: OpClass>(
    table: &PageTable,
    descent: &Descent<O>,
    chosen: &Chosen<O>,
) -> bool
    requires can { MayStep O.meaning table.now descent.now }
    ensures { IsTrue result ↔ IsSpottedAt table.now descent.now chosen.now }
{
    match rule_at(table, descent) {
        Rule::Choose => match descent.recon() {
            None => false,
            Some(recon) => is_spot(table, descent, recon, chosen.spotted()),
        },
        Rule::Start | Rule::Put | Rule::Move | Rule::Divide => false,
    }
}

/// Whether a look at the insert would give the copy that the class divided. It compares the values
/// where they stand, and takes no memory.
pub(crate) fn is_bunch<O: OpClass>(
    table: &PageTable,
    descent: &Descent<O>,
    parted: &Parted<O>,
) -> bool
    requires can { MayStep O.meaning table.now descent.now }
    ensures { IsTrue result ↔ IsBunchAt table.now descent.now parted.now }
{
    match rule_at(table, descent) {
        Rule::Divide => match descent.recon() {
            None => false,
            Some(recon) => is_cut(table, descent, recon, parted.bunch()),
        },
        Rule::Start | Rule::Put | Rule::Move | Rule::Choose => false,
    }
}
