ghost use Rattle.std.specs.Prelude.{◌≡◌, IfSome, true, length};
ghost use Rattle.spg_histories.specs.Tasks.{lanes_tasks, parts_tasks};

use spg_base::List;
use spg_script::{Command, Part, PartRef};

/// How many commands lanes have. None where there are more than a number holds.
fn count_lanes(lanes: &[List<Command>]) -> Option<usize>
    ensures { IfSome result (λ count. count ≡ length (lanes_tasks 0 0 true lanes.now)) }
{
    let mut count = 0usize;
    for lane in lanes {
        count = count.checked_add(lane.len())?;
    }
    Some(count)
}

/// How many commands a block has. None where there are more than a number holds.
fn count_part(block: &Part) -> Option<usize>
    ensures { IfSome result (λ count. count ≡ length (lanes_tasks 0 0 true block.now.lanes)) }
{
    match block.lent() {
        PartRef::Alone(_) => Some(1),
        PartRef::Together(lanes) => count_lanes(lanes),
    }
}

/// How many commands blocks have. None where there are more than a number holds.
pub(crate) fn count_commands(blocks: &[Part]) -> Option<usize>
    ensures { IfSome result (λ count. count ≡ length (parts_tasks 0 blocks.now)) }
{
    let mut count = 0usize;
    for block in blocks {
        count = count.checked_add(count_part(block)?)?;
    }
    Some(count)
}
