//! An index that lanes share, and its journal then.
ghost use Rattle.std.specs.Prelude.{◌<◌, ◌≤◌, ℕ, length, slice_index_or};
ghost use Rattle.spg_turn.specs.Views.{first_view};
ghost use Rattle.spg_share.specs.Shares.{start_view};

use spg_base::Memory;
use spg_opclass::SharedClass;
use spg_share::{Lane, Task, share};
use spg_whole::Index;
use std::mem;
use std::sync::Wait;
use std::thread::Threads;

/// Lets lanes share an index, and hands it back.
pub(crate) fn run<R: AllocGlobal + Threads + Wait + Sync, O: SharedClass, T: Task<O>>(
    rt: &R,
    index: Index<O>,
    lanes: &mut [Lane<O, T>],
) -> Result<Index<O>, Memory>
    requires count { (0 < length lanes.old) × (length lanes.old ≤ 64) }
    requires ready { (i : ℕ) (d : _) → i < length lanes.old → T.ready (slice_index_or lanes.old i d).task (start_view (first_view index.journal index.origin) (length lanes.old) i) }
{
    match share(rt, index, lanes) {
        Ok(index) => Ok(index),
        Err((index, memory)) => {
            mem::forget(index);
            Err(memory)
        }
    }
}
