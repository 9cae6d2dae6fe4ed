ghost use Rattle.std.specs.Prelude.{◌≡◌, ◌⊎◌, Option, option_copied, IfOk, OnOk, OnErr, IsErrOf};
ghost use Rattle.spg_forest.specs.Tuples.{Live};
ghost use Rattle.spg_forest.specs.Shape.{Shape};
ghost use Rattle.spg_forest.specs.Exact.{IsExact};
ghost use Rattle.spg_tree.specs.Table.{sheets_of};
ghost use Rattle.spg_tree.specs.Descents.{in_nulls};
ghost use Rattle.spg_tree.specs.declared.stand.Stand.TheVariants.{Root};
ghost use Rattle.spg_tree.specs.declared.stand.StepRefused.TheVariants.{IndexFull, ClockFull};
ghost use Rattle.spg_descend.specs.Carried.{carried, IsCarried};
ghost use Rattle.spg_descend.specs.Held.{TouchesFree};
ghost use Rattle.spg_descend.specs.Puts.{IsAtLeaves, Fits};
ghost use Rattle.spg_split.specs.Splits.{IsAtRoot, IsSplitOut, PartsWithout};
ghost use Rattle.spg_split.specs.Fulls.{IsRootFull};
ghost use Rattle.spg_split.specs.Ways.{IsSplitWay, Notes};
ghost use Rattle.spg_split.specs.Tables.{RootTable};
ghost use Rattle.spg_split.specs.Parting.{IsPartedAt};
ghost use Rattle.spg_split.specs.Causes.{IsCause, IsCauseOf, IsWayFor, RisesOnly, root_bytes, root_in_one};
ghost use Rattle.spg_split.specs.Cases.{NotesRoot};

use crate::division::divide;
use crate::parts::Parts;
use crate::put::{Divided, put_division};
use crate::rows::rows_at_root;
use crate::split::SplitOut;
use spg_base::{Block, SeatNo};
use spg_opclass::{OpClass, Parted};
use spg_tree::{Descent, PageTable, Stand, StepRefused};
use std::alloc::Global;

/// Divides the leaves of the root leaf page at which an insert stands, as the class divided them.
fn divide_leaves<O: OpClass>(
    alloc: Global,
    table: &mut PageTable,
    descent: &Descent<O>,
    root: Block,
    seat: SeatNo,
    parted: Option<&Parted<O>>,
) -> Result<Divided, StepRefused>
    requires shape { Shape O.meaning (sheets_of table.old) }
    requires stands { descent.now.stand ≡ Root root }
    requires spot { IsAtLeaves (sheets_of table.old) (in_nulls descent.now) descent.now.stand }
    requires of_key { (key : Option O.Key) × IsCarried O.meaning (sheets_of table.old) descent.now key }
    requires no_room { Fits table.old descent.now.stand (Live (carried descent.now) 0) → ⊥ }
    requires parted { IsPartedAt table.old descent.now (option_copied parted) }
    ensures ok { IfOk result (λ way. IsSplitWay O.meaning table.old table.new descent.now way) }
    ensures held { OnOk result (TouchesFree table.old table.new descent.now seat) }
    ensures table { OnOk result (RootTable O.meaning table.old table.new descent.now seat) }
    ensures exact { OnOk result (IsExact (sheets_of table.old) (sheets_of table.new) table.new.touched) }
    ensures cause { IfOk result (λ way. IsCauseOf (root_bytes O.meaning table.old descent.now) way) }
    ensures way { IfOk result (λ way. IsWayFor (root_bytes O.meaning table.old descent.now) (root_in_one O.meaning table.old descent.now) way) }
    ensures rise { IfOk result (λ way. RisesOnly (root_in_one O.meaning table.old descent.now) way) }
    ensures full { IsErrOf result IndexFull → IsRootFull O.meaning table.old descent.now seat }
    ensures not_full { OnOk result (IsRootFull O.meaning table.old descent.now seat → ⊥) }
    ensures clock { IsErrOf result ClockFull → ⊥ }
    ensures err { OnErr result (table.new ≡ table.old) }
{
    let _recon = descent.recon();
    let rows = rows_at_root(alloc, table.page(root), descent)?;
    let division = divide(alloc, rows.len(), parted)?;
    let parts = Parts::of(alloc, rows.as_slice(), division)?;
    put_division(alloc, table, root, parts, seat)
}

/// Notes in the insert what a division did.
fn note<O: OpClass>(descent: &mut Descent<O>, way: Divided) -> SplitOut
    ensures { Notes descent.old descent.new way result }
{
    match way {
        Divided::With => SplitOut::Put,
        Divided::Without { in_one: false } => SplitOut::LeftOut,
        Divided::Without { in_one: true } => {
            descent.note_rise();
            SplitOut::LeftOut
        }
    }
}

/// Divides the leaves of the root leaf page at which an insert stands, and its own leaf, as `split_leaf`
/// tells.
pub(crate) fn divide_root<O: OpClass>(
    alloc: Global,
    table: &mut PageTable,
    descent: &mut Descent<O>,
    seat: SeatNo,
    parted: Option<&Parted<O>>,
) -> Result<SplitOut, StepRefused>
    requires shape { Shape O.meaning (sheets_of table.old) }
    requires root { IsAtRoot descent.old.stand }
    requires spot { IsAtLeaves (sheets_of table.old) (in_nulls descent.old) descent.old.stand }
    requires of_key { (key : Option O.Key) × IsCarried O.meaning (sheets_of table.old) descent.old key }
    requires no_room { Fits table.old descent.old.stand (Live (carried descent.old) 0) → ⊥ }
    requires parted { IsPartedAt table.old descent.old (option_copied parted) }
    ensures ok { IfOk result (λ out. IsSplitOut O.meaning table.old table.new descent.old descent.new out) }
    ensures held { OnOk result (TouchesFree table.old table.new descent.old seat) }
    ensures table { OnOk result (RootTable O.meaning table.old table.new descent.old seat) }
    ensures exact { OnOk result (IsExact (sheets_of table.old) (sheets_of table.new) table.new.touched) }
    ensures cause { IfOk result (λ out. IsCause (root_bytes O.meaning table.old descent.old) out) }
    ensures noted { IfOk result (λ out. NotesRoot O.meaning table.old descent.old descent.new out) }
    ensures rise { IfOk result (λ out. (out ≡ SplitOut.LeftOut → PartsWithout O.meaning table.old table.new descent.old descent.new 0) ⊎ root_in_one O.meaning table.old descent.old) }
    ensures full { IsErrOf result IndexFull → IsRootFull O.meaning table.old descent.old seat }
    ensures not_full { OnOk result (IsRootFull O.meaning table.old descent.old seat → ⊥) }
    ensures clock { IsErrOf result ClockFull → ⊥ }
    ensures err { OnErr result (table.new ≡ table.old) }
    ensures err_descent { OnErr result (descent.new ≡ descent.old) }
{
    match descent.stand() {
        Stand::Root(root) => {
            let way = divide_leaves(alloc, table, descent, root, seat, parted)?;
            Ok(note(descent, way))
        }
        Stand::Start | Stand::At(_) | Stand::Empty => unreachable!(),
    }
}
