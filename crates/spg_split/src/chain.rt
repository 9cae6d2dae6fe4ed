ghost use Rattle.std.specs.Prelude.{◌≡◌, ◌<◌, ◌≤◌, ◌-◌, ◌+◌, length, take, IfOk, OnErr, IsErrOf};
ghost use Rattle.spg_forest.specs.Sheets.{weight, size_of};
ghost use Rattle.spg_tree.specs.Table.{IsSound};
ghost use Rattle.spg_tree.specs.declared.stand.StepRefused.TheVariants.{IndexFull, ClockFull};
ghost use Rattle.spg_split.specs.Parts.{AreReady};
ghost use Rattle.spg_split.specs.Divides.{MayDivide, IsDividedBelow};
ghost use Rattle.spg_split.specs.Fulls.{IsDivisionFull};

use crate::homes::{pick_homes, touched_by};
use crate::parts::Parts;
use crate::plan::{left_without, plan_lists, way_of};
use crate::put::Divided;
use crate::write::write_chain;
use spg_base::{Place, SeatNo};
use spg_tree::{PageTable, StepRefused};
use std::alloc::Global;

/// What came of the division of a chain.
#[derive(Clone, Copy, Debug)]
pub(crate) struct ChainOut {
    /// How it was done.
    pub(crate) way: Divided,
    /// Where the new inner tuple is.
    pub(crate) at: Place,
}

/// Puts the tuples of a division of the chain at a head on the pages where they go.
pub(crate) fn put_chain(
    alloc: Global,
    table: &mut PageTable,
    head: Place,
    parent: Place,
    node: u16,
    parts: Parts,
    seat: SeatNo,
) -> Result<ChainOut, StepRefused>
    requires may { MayDivide table.old head parent node }
    requires parts { AreReady parts }
    requires some { 0 < length parts.leaves }
    requires others { weight (take (length parts.leaves - 1) parts.leaves) ≤ 8160 }
    requires inner { size_of parts.inner ≤ 8156 }
    ensures ok { IfOk result (λ done. IsDividedBelow table.old table.new head parent node seat parts done) }
    ensures full { IsErrOf result IndexFull → IsDivisionFull table.old head parent parts seat }
    ensures clock { IsErrOf result ClockFull → ⊥ }
    ensures err { OnErr result (table.new ≡ table.old) }
    ensures sound { IsSound table.old }
{
    let Place { block, offset } = head;
    let Place {
        block: above,
        offset: at_above,
    } = parent;
    let before = table.page_count();
    let plan = plan_lists(&parts, left_without(table.page(block), offset));
    let way = way_of(&parts, &plan);
    let homes = pick_homes(alloc, table, block, above, &parts.inner, plan.rest, seat)?;
    let touched = touched_by(block, above, &homes, before, table.page_count());
    let Parts {
        leaves,
        node_of,
        inner,
        mut links,
    } = parts;
    let place = Place {
        block: above,
        offset: at_above,
    };
    let at = write_chain(
        table,
        block,
        offset,
        place,
        node,
        homes.inner,
        homes.rest,
        &inner,
        &leaves.as_slice()[..plan.count],
        node_of.as_slice(),
        plan.cut,
        &mut links,
    );
    table.set_touched(touched);
    Ok(ChainOut {
        way,
        at: Place {
            block: homes.inner,
            offset: at,
        },
    })
}
