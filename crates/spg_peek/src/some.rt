// Some of the rows that conditions ask for.
ghost use Rattle.std.specs.Prelude.{◌≡◌, ◌⊎◌, ◌≤◌, [], length, IfOk, OnOk};
ghost use Rattle.spg_opclass.specs.declared.query.Query.TheVariants.{Where};
ghost use Rattle.spg_core.specs.Seen.{past_of};
ghost use Rattle.spg_whole.specs.Calls.{AllClosed};
ghost use Rattle.spg_peek.specs.Peeking.{AreSome, IsScanNow, OpensNow, ReadsTo, AreFirst};

use crate::read::read_item;
use spg_base::{List, Memory, Row, Rows, Stamp};
use spg_core::State;
use spg_opclass::{OpClass, Query};
use spg_scan::{Scan, Walk};
use spg_sort::sort_rows;
use spg_whole::Index;
use std::alloc::Global;

/// A scan of these conditions, at this moment.
pub(crate) fn open_now<O: OpClass>(
    alloc: Global,
    state: &State<O>,
    conds: List<O::Cond>,
) -> Result<Scan<O>, Memory>
    requires { AllClosed (past_of state.now) }
    ensures { IfOk result (λ scan. OpensNow O.meaning state.now conds scan) }
{
    // The pages hold the rows that are present.
    let _ = state.pages();
    let start = state.class().start(alloc)?;
    let at = state.journal().len();
    let stamp = Stamp::at(state.clock());
    Scan::open(alloc, Query::Where(conds), start, at, stamp)
}

/// Reads what a scan holds, the last item first, until it holds nothing or so many rows are found. Each read
/// leaves fewer to do.
pub(crate) fn read_to<O: OpClass>(
    alloc: Global,
    state: &State<O>,
    scan: &mut Scan<O>,
    limit: usize,
    found: &mut Vec<Row>,
) -> Result<(), Memory>
    requires closed { AllClosed (past_of state.now) }
    requires scan { IsScanNow O.meaning state.now scan.old }
    requires same { found.old.items ≡ scan.old.rows }
    ensures { OnOk result (ReadsTo O.meaning state.now limit scan.old scan.new found.new.items) }
{
    loop {
        let held = scan.held();
        if held == 0 {
            return Ok(());
        }
        if found.len() >= limit {
            return Ok(());
        }
        read_item(alloc, state, scan, held - 1, found)?;
    }
}

/// The first of these rows, at most so many, in their order.
fn first_of(found: Vec<Row>, limit: usize) -> Rows
    ensures { AreFirst limit found.items result }
{
    let mut rows = found;
    sort_rows(&mut rows);
    rows.truncate(limit);
    List::from_vec(rows)
}

/// Some rows, `limit` at most, that are live and whose key meets each of the conditions: all such rows where they
/// are fewer. They are ascending, and none comes twice. The search ends as soon as it has found enough; which of more
/// rows it finds is left open. The index is only read, and nothing is added to its journal.
pub fn find_some<O: OpClass>(
    alloc: Global,
    index: &Index<O>,
    conds: List<O::Cond>,
    limit: usize,
) -> Result<Rows, Memory>
    ensures { IfOk result (λ rows. AreSome O.meaning (past_of index.now) (Where conds) limit rows) }
{
    let state = index.state();
    // The journal is legal.
    let _ = state.journal();
    let mut scan = open_now(alloc, state, conds)?;
    let mut found = Vec::new(alloc);
    read_to(alloc, state, &mut scan, limit, &mut found)?;
    Ok(first_of(found, limit))
}
