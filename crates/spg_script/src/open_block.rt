ghost use Rattle.std.specs.Prelude.{◌≡◌, IfOk};
ghost use Rattle.spg_script.specs.Steps.{lanes_of};

use crate::command::Command;
use spg_base::{List, Memory};
use std::alloc::Global;

/// The lanes of a block whose end was not read yet.
#[derive(Drop)]
pub enum OpenBlock {
    /// No lane has begun.
    Empty,
    /// The lanes that have ended, and the one that goes on.
    InLane {
        ended: List<List<Command>>,
        lane: List<Command>,
    },
}

impl OpenBlock {
    /// All its lanes.
    pub fn into_lanes(self, alloc: Global) -> Result<List<List<Command>>, Memory>
        ensures { IfOk result (λ lanes. lanes ≡ lanes_of self) }
    {
        match self {
            OpenBlock::Empty => Ok(List::new(alloc)),
            OpenBlock::InLane { mut ended, lane } => {
                ended.push(lane)?;
                Ok(ended)
            }
        }
    }
}
