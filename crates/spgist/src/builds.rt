// An index of rows that are gathered.
ghost use Rattle.std.specs.Prelude.{◌≡◌, ◌≤◌, ◌<◌, ◌+◌, ◌*◌, ℕ, false, None as Nil, IfOk, IsErrOf, length};
ghost use Rattle.spg_forest.specs.Sheets.{blank};
ghost use Rattle.spg_forest.specs.Shape.{Shape};
ghost use Rattle.spg_tree.specs.Table.{sheets_of, sheet_at, latch_at};
ghost use Rattle.spg_core.specs.Loading.{IsAdopted};
ghost use Rattle.spg_build.specs.declared.refused.BuildRefused.TheVariants.{IndexFull};
ghost use Rattle.spgist.specs.Builds.{IsBuilt};

use spg_base::Memory;
use spg_build::{BuildRefused, Gathered, build};
use spg_core::State;
use spg_opclass::{OpClass, SharedClass};
use spg_tree::PageTable;
use spg_whole::Index;
use std::alloc::Global;
use std::thread::Threads;

/// How many pages there are. Block 0 of every table is an empty leaf page, for the meta page.
pub(crate) fn count_pages(table: &PageTable) -> u32
    ensures meta { sheet_at table.now 0 ≡ blank false }
{
    table.page_count()
}

/// The state of well formed pages on which nobody has a latch.
pub(crate) fn adopt<O: OpClass>(
    alloc: Global,
    class: O,
    table: PageTable,
) -> Result<State<O>, Memory>
    requires shape { Shape O.meaning (sheets_of table) }
    requires meta { sheet_at table 0 ≡ blank false }
    requires latches { (b : ℕ) → latch_at table b ≡ Nil }
    ensures { IfOk result (λ state. IsAdopted O.meaning table state) }
{
    match State::adopt(alloc, class, table)? {
        Ok(state) => Ok(state),
        Err(_) => unreachable!(),
    }
}

/// The index of at most `limit` pages, 4 to 131,072, that holds just the rows that were gathered. It is built at once by
/// so many workers, and goes on like any other. `IndexFull` only where the limit is less than 4 for each row and 7 more.
/// Its journal begins with the insert of each row, by seat 0.
pub fn build_index<R: AllocGlobal + Threads + Sync, O: SharedClass>(
    rt: &R,
    class: O,
    gathered: Gathered<O::Key>,
    workers: u8,
    limit: u32,
) -> Result<Index<O>, BuildRefused>
    requires workers { 0 < workers }
    requires from { 4 ≤ limit }
    requires to { limit ≤ 131072 }
    ensures built { IfOk result (λ index. IsBuilt O.meaning gathered limit index) }
    ensures full { IsErrOf result IndexFull → limit < 4 * length gathered + 7 }
{
    let entries = gathered.into_entries();
    let table = match build(rt, &class, entries, workers, limit) {
        Ok(table) => table,
        Err(refused) => return Err(refused),
    };
    count_pages(&table);
    let state = adopt(rt.alloc(), class, table)?;
    Ok(Index::of(state))
}
