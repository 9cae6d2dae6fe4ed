ghost use Rattle.std.specs.Prelude.{◌≡◌, Option, option_copied, ◌+◌, ◌^◌, IfOk, OnOk, OnErr, IsErrOf};
ghost use Rattle.spg_forest.specs.Tuples.{Live};
ghost use Rattle.spg_forest.specs.Shape.{Shape};
ghost use Rattle.spg_forest.specs.Exact.{IsExact};
ghost use Rattle.spg_tree.specs.Table.{sheets_of};
ghost use Rattle.spg_tree.specs.declared.stand.StepRefused.TheVariants.{IndexFull, ClockFull};
ghost use Rattle.spg_descend.specs.Carried.{carried, IsCarried};
ghost use Rattle.spg_descend.specs.Held.{TouchesFree, StandsFree};
ghost use Rattle.spg_descend.specs.Puts.{Fits};
ghost use Rattle.spg_descend.specs.Rules.{MayMove};
ghost use Rattle.spg_descend.specs.Below.{IsTicked};
ghost use Rattle.spg_split.specs.Splits.{IsAtRoot};
ghost use Rattle.spg_split.specs.Cases.{IsSplitSpot, IsLeafSplit, LeafTable, IsLeafCause, RisesAtMost, NotesRoot, IsLeafFull};
ghost use Rattle.spg_split.specs.Parting.{IsPartedAt};

use crate::at_root::divide_root;
use crate::below::divide_chain;
use spg_base::SeatNo;
use spg_opclass::{OpClass, Parted};
use spg_tree::{Descent, PageTable, Stand, StepRefused};
use std::alloc::Global;

/// What came of a division.
#[derive(Clone, Copy, Debug, PartialEq, Eq)]
pub enum SplitOut {
    /// The leaf is in the index.
    Put,
    /// The lists do not fit with it on one page, so it was left out: the insert goes on from the new
    /// inner tuple.
    LeftOut,
}

/// Divides the leaves where an insert stands, and its own leaf, as the class divided a copy of them
/// (docs/ALGORITHM.md, Division). `parted` has that copy, as `bunch_at` makes it, and what the class
/// answered: None exactly in the nulls tree, whose values are all in one node.
/// `LeftOut` comes exactly where the lists that must go elsewhere do not fit with the leaf on one page;
/// then it is in none of them, and the insert stands at the new inner tuple. `ClockFull` comes exactly
/// below a root where the clock is 2^48 - 1, before a page is picked; `IndexFull` exactly where a pick
/// needs a new page and there may be none, unless memory is short before. After a refusal table and
/// insert are as they were.
pub fn split_leaf<O: OpClass>(
    alloc: Global,
    table: &mut PageTable,
    descent: &mut Descent<O>,
    seat: SeatNo,
    parted: Option<&Parted<O>>,
) -> Result<SplitOut, StepRefused>
    requires shape { Shape O.meaning (sheets_of table.old) }
    requires spot { IsSplitSpot table.old descent.old }
    requires of_key { (key : Option O.Key) × IsCarried O.meaning (sheets_of table.old) descent.old key }
    requires no_room { Fits table.old descent.old.stand (Live (carried descent.old) 0) → ⊥ }
    requires long { MayMove table.old descent.old.stand (Live (carried descent.old) 0) → ⊥ }
    requires parted { IsPartedAt table.old descent.old (option_copied parted) }
    ensures ok { IfOk result (λ out. IsLeafSplit O.meaning table.old table.new descent.old descent.new out) }
    ensures held { OnOk result (TouchesFree table.old table.new descent.old seat) }
    ensures stands { OnOk result (StandsFree table.old table.new descent.old descent.new seat) }
    ensures table { IfOk result (λ out. LeafTable O.meaning table.old table.new descent.old descent.new seat out) }
    ensures exact { OnOk result (IsExact (sheets_of table.old) (sheets_of table.new) table.new.touched) }
    ensures cause { IfOk result (λ out. IsLeafCause O.meaning table.old descent.old out) }
    ensures noted { IfOk result (λ out. IsAtRoot descent.old.stand → NotesRoot O.meaning table.old descent.old descent.new out) }
    ensures rise { IfOk result (λ out. RisesAtMost O.meaning table.old table.new descent.old descent.new out) }
    ensures ticked { OnOk result ((IsAtRoot descent.old.stand → ⊥) → IsTicked table.old table.new) }
    ensures full { IsErrOf result IndexFull → IsLeafFull O.meaning table.old descent.old seat }
    ensures not_full { OnOk result (IsLeafFull O.meaning table.old descent.old seat → ⊥) }
    ensures clock { IsErrOf result ClockFull → (IsAtRoot descent.old.stand → ⊥) × (table.old.clock + 1 ≡ 2 ^ 48) }
    ensures clock_first { (IsAtRoot descent.old.stand → ⊥) → table.old.clock + 1 ≡ 2 ^ 48 → IsErrOf result ClockFull }
    ensures err { OnErr result (table.new ≡ table.old) }
    ensures err_descent { OnErr result (descent.new ≡ descent.old) }
{
    match descent.stand() {
        Stand::Root(_) => divide_root(alloc, table, descent, seat, parted),
        Stand::At(_) => divide_chain(alloc, table, descent, seat, parted),
        Stand::Start | Stand::Empty => unreachable!(),
    }
}
