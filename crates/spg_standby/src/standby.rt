// The standby's side of a pair.
ghost use Rattle.std.specs.Prelude.{◌≡◌, ◌≤◌, length};
ghost use Rattle.std.specs.VecDeque.{deque_len, deque_capacity};
ghost use Rattle.spg_standby.specs.Pair.{IsPaired};
ghost use Rattle.spg_standby.specs.Finding.{IsIdle};
ghost use Rattle.spg_standby.specs.Writes.{Settles};

use crate::catching::catch_up;
use crate::follower::Follower;
use crate::queue::Queue;
use crate::wrote::Wrote;
use spg_base::Memory;
use spg_core::State;
use spg_opclass::OpClass;
use std::alloc::Global;

/// The index that follows, and the records that it has not applied yet.
#[derive(Drop)]
pub(crate) struct Standby<O: OpClass> {
    pub(crate) alloc: Global,
    pub(crate) follower: Follower<O>,
    pub(crate) queue: Queue,
    /// How many records may be queued after a write.
    pub(crate) lag: usize,
}

/// Applies the oldest records until at most so many are queued as may be. Where it finds no memory it
/// does so after a later section.
pub(crate) fn follow<O: OpClass>(state: &State<O>, standby: &mut Standby<O>)
    requires paired { IsPaired O.meaning state.now standby.old.follower standby.old.queue.records.items }
    requires idle { IsIdle standby.old.follower }
    ensures paired { IsPaired O.meaning state.now standby.new.follower standby.new.queue.records.items }
    ensures idle { IsIdle standby.new.follower }
    ensures len { deque_len standby.new.queue.records ≤ deque_len standby.old.queue.records }
    ensures capacity { deque_capacity standby.new.queue.records ≡ deque_capacity standby.old.queue.records }
    ensures lag { standby.new.lag ≡ standby.old.lag }
{
    let _ = catch_up(
        state,
        &mut standby.follower,
        &mut standby.queue,
        standby.lag,
    );
}

/// Applies the oldest records until at most so many are queued as may be, and gives what is answered
/// then: what came of the write, or `Memory` where it found none and more are queued.
pub(crate) fn settle<O: OpClass>(state: &State<O>, standby: &mut Standby<O>, wrote: Wrote) -> Wrote
    requires paired { IsPaired O.meaning state.now standby.old.follower standby.old.queue.records.items }
    requires idle { IsIdle standby.old.follower }
    ensures paired { IsPaired O.meaning state.now standby.new.follower standby.new.queue.records.items }
    ensures idle { IsIdle standby.new.follower }
    ensures lag { standby.new.lag ≡ standby.old.lag }
    ensures wrote { Settles (length standby.new.queue.records.items) standby.new.lag wrote result }
{
    match catch_up(
        state,
        &mut standby.follower,
        &mut standby.queue,
        standby.lag,
    ) {
        Ok(()) => wrote,
        Err(Memory) => Wrote::Memory,
    }
}
