ghost use Rattle.std.specs.Prelude.{◌<◌, length};
ghost use Rattle.spg_vacuum.specs.Latch.{IsHolder};

use spg_base::{Block, SeatNo};
use spg_tree::PageTable;

/// The other seat that holds a block. None exactly where no other seat does.
pub(crate) fn other_holder(table: &PageTable, block: Block, seat: SeatNo) -> Option<SeatNo>
    requires { block < length table.now.pages }
    ensures { IsHolder table.now block seat result }
{
    let by = table.latch_of(block)?;
    if by == seat { None } else { Some(by) }
}
