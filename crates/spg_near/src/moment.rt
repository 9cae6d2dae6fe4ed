// A search of one moment: the pages and the states of rows stay as they are meanwhile.
ghost use Rattle.std.specs.Prelude.{◌≡◌, ◌<◌, length, IfOk};
ghost use Rattle.spg_base.specs.declared.point.Point.{Point as Plane};
ghost use Rattle.spg_rows.specs.History.{History};
ghost use Rattle.spg_near.specs.Moment.{IsNow, IsOpenNow, IsReadTo, IsSought};

use crate::class::NearClass;
use crate::near::Near;
use crate::near_row::NearRow;
use spg_base::{Block, List, Memory, Point, SeatNo, Stamp};
use spg_rows::RowTable;
use spg_scan::ReadOut;
use spg_tree::PageTable;
use std::alloc::Global;

/// What came of a search of one moment.
#[derive(Debug, Drop)]
pub enum Sought {
    /// The rows, each with its distance, and how many tuples were met.
    Found { rows: List<NearRow>, met: u64 },
    /// That seat holds the block of the next item.
    Latched { block: Block, by: SeatNo },
}

/// Reads the nearest item, again and again, until none has to be read or another seat holds the block
/// of the next. The pages stay as they are, so each read leaves fewer.
fn read_all<O: NearClass>(
    alloc: Global,
    class: &O,
    table: &PageTable,
    rows: &RowTable<O>,
    seat: SeatNo,
    near: &mut Near<O>,
) -> Result<ReadOut, Memory>
    requires begun { (past : History O Plane O.Recon O.Cond) × IsOpenNow O.meaning O.box_below seat past table.now rows.now near.old }
    ensures begun { (past : History O Plane O.Recon O.Cond) → IsOpenNow O.meaning O.box_below seat past table.now rows.now near.old → IsOpenNow O.meaning O.box_below seat past table.now rows.now near.new }
    ensures target { near.new.target ≡ near.old.target }
    ensures limit { near.new.limit ≡ near.old.limit }
    ensures to { IfOk result (λ out. IsReadTo table.now seat near.new out) }
{
    loop {
        match near.next_item() {
            None => return Ok(ReadOut::Read),
            Some(item) => match near.read_item(alloc, class, table, rows, item, seat)? {
                ReadOut::Read => {}
                ReadOut::Latched { block, by } => return Ok(ReadOut::Latched { block, by }),
            },
        }
    }
}

/// The rows nearest to a point, `limit` at most, as they are now. `Latched` where it came to a block
/// that another seat holds. `at` is how long the journal is, after which the seat has nothing open.
pub fn search_now<O: NearClass>(
    alloc: Global,
    class: &O,
    table: &PageTable,
    rows: &RowTable<O>,
    seat: SeatNo,
    at: u64,
    target: Point,
    limit: u16,
) -> Result<Sought, Memory>
    requires now { (past : History O Plane O.Recon O.Cond) × IsNow O.meaning seat past table.now rows.now × (at ≡ length past) }
    requires some { 0 < limit }
    ensures { (past : History O Plane O.Recon O.Cond) → IsNow O.meaning seat past table.now rows.now → at ≡ length past → IfOk result (IsSought O.meaning O.box_below seat past table.now target limit) }
{
    let start = class.start(alloc)?;
    let stamp = Stamp::at(table.clock());
    let mut near = Near::open(alloc, target, limit, start, at, stamp)?;
    match read_all(alloc, class, table, rows, seat, &mut near)? {
        ReadOut::Read => {
            let found = near.hits(alloc)?;
            Ok(Sought::Found {
                rows: found,
                met: near.met(),
            })
        }
        ReadOut::Latched { block, by } => Ok(Sought::Latched { block, by }),
    }
}
