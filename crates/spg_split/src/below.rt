ghost use Rattle.std.specs.Prelude.{◌≡◌, ◌⊎◌, ◌+◌, ◌^◌, ◌<◌, Option, Some as Just, option_copied, IfOk, OnOk, OnErr, IsErrOf};
ghost use Rattle.spg_forest.specs.Tuples.{Live};
ghost use Rattle.spg_forest.specs.Shape.{Shape};
ghost use Rattle.spg_forest.specs.Exact.{IsExact};
ghost use Rattle.spg_tree.specs.Table.{sheets_of};
ghost use Rattle.spg_tree.specs.declared.stand.StepRefused.TheVariants.{IndexFull, ClockFull};
ghost use Rattle.spg_descend.specs.Carried.{carried, IsCarried};
ghost use Rattle.spg_descend.specs.Held.{TouchesFree, IsFreeHome, StandsFree};
ghost use Rattle.spg_descend.specs.Puts.{Fits};
ghost use Rattle.spg_descend.specs.Rules.{MayMove};
ghost use Rattle.spg_descend.specs.Below.{IsAtChain, IsTicked};
ghost use Rattle.spg_tree.specs.declared.stand.Stand.TheVariants.{At};
ghost use Rattle.spg_forest.specs.View.{Place as PlaceAt};
ghost use Rattle.spg_split.specs.Below.{IsChainSplit, SplitsWithout, MakesBelow};
ghost use Rattle.spg_split.specs.Ways.{IsChainWay, NotesChain, IsBelowParent};
ghost use Rattle.spg_split.specs.Causes.{IsCause, IsCauseOf, RisesOnly, chain_bytes, chain_in_one};
ghost use Rattle.spg_split.specs.Fulls.{IsChainFull};
ghost use Rattle.spg_split.specs.Tables.{DividesBelow, ChainTable};
ghost use Rattle.spg_split.specs.Parting.{IsPartedAt};

use crate::chain::{ChainOut, put_chain};
use crate::division::divide;
use crate::parts::Parts;
use crate::put::Divided;
use crate::rows::rows_at_chain;
use crate::split::SplitOut;
use spg_base::{Place, SeatNo};
use spg_opclass::{OpClass, Parted};
use spg_tree::{Descent, PageTable, Stand, StepRefused};
use std::alloc::Global;

/// Divides the chain at a head, at which an insert stands, and the leaf of the insert, as the class
/// divided them.
fn divide_below<O: OpClass>(
    alloc: Global,
    table: &mut PageTable,
    descent: &Descent<O>,
    head: Place,
    parent: Place,
    node: u16,
    seat: SeatNo,
    parted: Option<&Parted<O>>,
) -> Result<ChainOut, StepRefused>
    requires shape { Shape O.meaning (sheets_of table.old) }
    requires stands { descent.now.stand ≡ At head }
    requires above { descent.now.parent ≡ Just (parent, node) }
    requires spot { IsAtChain table.old descent.now }
    requires of_key { (key : Option O.Key) × IsCarried O.meaning (sheets_of table.old) descent.now key }
    requires long { MayMove table.old descent.now.stand (Live (carried descent.now) 0) → ⊥ }
    requires parted { IsPartedAt table.old descent.now (option_copied parted) }
    requires tick { table.old.clock + 1 < 2 ^ 48 }
    ensures ok { IfOk result (λ done. IsChainWay O.meaning table.old table.new descent.now done.at done.way × IsTicked table.old table.new × MakesBelow table.old table.new descent.now.parent done.at) }
    ensures held { OnOk result (TouchesFree table.old table.new descent.now seat) }
    ensures home { IfOk result (λ done. IsFreeHome table.old table.new descent.now.parent done.at.block seat) }
    ensures table { IfOk result (λ done. DividesBelow O.meaning table.old table.new descent.now descent.now.stand descent.now.parent seat done) }
    ensures exact { OnOk result (IsExact (sheets_of table.old) (sheets_of table.new) table.new.touched) }
    ensures cause { IfOk result (λ done. IsCauseOf (chain_bytes O.meaning table.old descent.now) done.way) }
    ensures rise { IfOk result (λ done. RisesOnly (chain_in_one O.meaning table.old descent.now) done.way) }
    ensures full { IsErrOf result IndexFull → IsChainFull O.meaning table.old descent.now seat }
    ensures clock { IsErrOf result ClockFull → ⊥ }
    ensures err { OnErr result (table.new ≡ table.old) }
{
    let Place { block, offset } = head;
    let _recon = descent.recon();
    let rows = rows_at_chain(alloc, table.page(block), offset, descent)?;
    let division = divide(alloc, rows.len(), parted)?;
    let parts = Parts::of(alloc, rows.as_slice(), division)?;
    let head = Place { block, offset };
    put_chain(alloc, table, head, parent, node, parts, seat)
}

/// Notes in the insert what the division of a chain did.
fn note_chain<O: OpClass>(descent: &mut Descent<O>, done: ChainOut) -> SplitOut
    requires { IsBelowParent descent.old.parent }
    ensures { NotesChain descent.old descent.new done.at done.way result }
{
    let ChainOut { way, at } = done;
    match way {
        Divided::With => SplitOut::Put,
        Divided::Without { in_one: false } => {
            descent.place(Stand::At(at), descent.parent());
            SplitOut::LeftOut
        }
        Divided::Without { in_one: true } => {
            descent.place(Stand::At(at), descent.parent());
            descent.note_rise();
            SplitOut::LeftOut
        }
    }
}

/// Divides the chain at which an insert stands below a root, and its own leaf, as
/// `split_leaf` tells.
pub(crate) fn divide_chain<O: OpClass>(
    alloc: Global,
    table: &mut PageTable,
    descent: &mut Descent<O>,
    seat: SeatNo,
    parted: Option<&Parted<O>>,
) -> Result<SplitOut, StepRefused>
    requires shape { Shape O.meaning (sheets_of table.old) }
    requires spot { IsAtChain table.old descent.old }
    requires of_key { (key : Option O.Key) × IsCarried O.meaning (sheets_of table.old) descent.old key }
    requires no_room { Fits table.old descent.old.stand (Live (carried descent.old) 0) → ⊥ }
    requires long { MayMove table.old descent.old.stand (Live (carried descent.old) 0) → ⊥ }
    requires parted { IsPartedAt table.old descent.old (option_copied parted) }
    ensures ok { IfOk result (λ out. IsChainSplit O.meaning table.old table.new descent.old descent.new out) }
    ensures held { OnOk result (TouchesFree table.old table.new descent.old seat) }
    ensures stands { OnOk result (StandsFree table.old table.new descent.old descent.new seat) }
    ensures table { IfOk result (λ out. ChainTable O.meaning table.old table.new descent.old descent.new seat out) }
    ensures exact { OnOk result (IsExact (sheets_of table.old) (sheets_of table.new) table.new.touched) }
    ensures cause { IfOk result (λ out. IsCause (chain_bytes O.meaning table.old descent.old) out) }
    ensures rise { IfOk result (λ out. (out ≡ SplitOut.LeftOut → (z : PlaceAt) × SplitsWithout O.meaning table.old table.new descent.old descent.new z 0) ⊎ chain_in_one O.meaning table.old descent.old) }
    ensures ticked { IfOk result (λ out. IsTicked table.old table.new) }
    ensures full { IsErrOf result IndexFull → IsChainFull O.meaning table.old descent.old seat }
    ensures not_full { OnOk result (IsChainFull O.meaning table.old descent.old seat → ⊥) }
    ensures clock { IsErrOf result ClockFull → table.old.clock + 1 ≡ 2 ^ 48 }
    ensures clock_first { table.old.clock + 1 ≡ 2 ^ 48 → IsErrOf result ClockFull }
    ensures err { OnErr result (table.new ≡ table.old) }
    ensures err_descent { OnErr result (descent.new ≡ descent.old) }
{
    if table.clock() + 1 == 1 << 48 {
        return Err(StepRefused::ClockFull);
    }
    match (descent.stand(), descent.parent()) {
        (Stand::At(head), Some((parent, node))) => {
            let done = divide_below(alloc, table, descent, head, parent, node, seat, parted)?;
            Ok(note_chain(descent, done))
        }
        _ => unreachable!(),
    }
}
