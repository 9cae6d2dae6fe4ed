// A primary that takes the writes, and a standby that answers the searches.
ghost use Rattle.std.specs.Prelude.{◌≡◌, ◌≢◌, ◌≤◌, ◌⊎◌, [], length, IfOk};
ghost use Rattle.spg_rows.specs.Told.{IsUsed};
ghost use Rattle.spg_core.specs.Seen.{past_of};
ghost use Rattle.spg_core.specs.Sections.{IsNew};
ghost use Rattle.spg_whole.specs.Calls.{AllClosed};
ghost use Rattle.spg_standby.specs.declared.wrote.Wrote.TheVariants as came;
ghost use Rattle.spg_standby.specs.Finding.{Finds, IsBehind};
ghost use Rattle.spg_standby.specs.Writes.{Inserted, Deleted, Vacuumed, Answers, IsSpanOf};

use crate::catching::find;
use crate::follower::Follower;
use crate::inserts::insert;
use crate::kills::kill;
use crate::paused::Paused;
use crate::pool::Pool;
use crate::queue::Queue;
use crate::standby::{Standby, settle};
use crate::vacuums::vacuum;
use crate::wrote::Wrote;
use spg_base::{Memory, Row, SeatNo, Span};
use spg_core::State;
use spg_opclass::{OpClass, Query};
use spg_scan::Closed;
use std::alloc::Global;
use std::collections::VecDeque;
use std::marker::Model;

/// An index that takes the writes, another one that answers the searches, and the records between them.
/// Between the calls nothing is open in either.
#[derive(Drop)]
pub struct Pair<O: OpClass> {
    primary: State<O>,
    standby: Standby<O>,
}

impl<O: OpClass> Model for Pair<O> {
    ghost use Rattle.spg_standby.specs.Twin.{Twin, twin_of, IsTwin};

    ghost Value = { Twin O O.Key O.Recon O.Cond };

    ghost view = { twin_of };

    ghost invariant = { λ p. IsTwin O.meaning (twin_of p) };
}

impl<O: OpClass> Pair<O> {
    /// Two indexes of no rows, of 4 to 131,072 pages, the standby at most so many records behind.
    pub fn new(alloc: Global, class: O, limit: u32, lag: u32) -> Result<Pair<O>, Memory>
        requires from { 4 ≤ limit }
        requires to { limit ≤ 131072 }
        ensures primary { IfOk result (λ pair. IsNew limit pair.primary) }
        ensures queued { IfOk result (λ pair. pair.queue ≡ []) }
        ensures lag { IfOk result (λ pair. pair.lag ≡ lag) }
    {
        let primary = State::new(alloc, class, limit)?;
        let follower = Follower::new(alloc, class, limit)?;
        let standby = Standby {
            alloc,
            follower,
            queue: Queue {
                records: VecDeque::new(alloc),
                pool: Pool::new(alloc),
            },
            lag: lag as usize,
        };
        Ok(Pair { primary, standby })
    }

    /// Inserts a row with its key, or with the null. `RowUsed` exactly where an insert of the row was put
    /// and not swept since, unless memory is short. `IndexFull` only where fewer than 4 blocks are left
    /// below the limit, and `ClockFull` only where the clock is 2^48 - 1, both only where the keys of its
    /// tree that were ever inserted take more than 8,160 bytes. The standby follows after each section;
    /// where it found no memory at the end the answer is `Memory`, and the row may have been put.
    pub fn insert(&mut self, row: Row, key: Option<O::Key>) -> (Wrote, Span)
        ensures wrote { Answers (Inserted O.meaning self.old.primary self.new.primary 0 row key) (length self.new.queue) self.new.lag result.0 }
        ensures used { IsUsed (past_of self.old.primary) row → (result.0 ≡ came.RowUsed) ⊎ (result.0 ≡ came.Memory) }
        ensures span { IsSpanOf self.old.primary self.new.primary result.1 }
        ensures queued { result.0 ≢ came.Memory → length self.new.queue ≤ self.new.lag }
        ensures lag { self.new.lag ≡ self.old.lag }
    {
        let from = self.primary.journal().len();
        let seat = SeatNo::first();
        let wrote = insert(&mut self.primary, &mut self.standby, seat, row, key);
        let wrote = settle(&self.primary, &mut self.standby, wrote);
        let to = self.primary.journal().len();
        (wrote, Span { from, to })
    }

    /// Deletes a row. `Killed` exactly where it is live, unless memory is short; else nothing changes.
    pub fn kill(&mut self, row: Row) -> (Wrote, Span)
        ensures wrote { Answers (Deleted self.old.primary self.new.primary 0 row) (length self.new.queue) self.new.lag result.0 }
        ensures span { IsSpanOf self.old.primary self.new.primary result.1 }
        ensures queued { result.0 ≢ came.Memory → length self.new.queue ≤ self.new.lag }
        ensures lag { self.new.lag ≡ self.old.lag }
    {
        let from = self.primary.journal().len();
        let seat = SeatNo::first();
        let wrote = kill(&mut self.primary, &mut self.standby, seat, row);
        let wrote = settle(&self.primary, &mut self.standby, wrote);
        let to = self.primary.journal().len();
        (wrote, Span { from, to })
    }

    /// Removes the entries of the rows that were deleted. The answer is how many they are.
    pub fn vacuum(&mut self) -> (Wrote, Span)
        ensures wrote { Answers (Vacuumed self.old.primary self.new.primary 0) (length self.new.queue) self.new.lag result.0 }
        ensures span { IsSpanOf self.old.primary self.new.primary result.1 }
        ensures queued { result.0 ≢ came.Memory → length self.new.queue ≤ self.new.lag }
        ensures lag { self.new.lag ≡ self.old.lag }
    {
        let from = self.primary.journal().len();
        let seat = SeatNo::first();
        let wrote = vacuum(&mut self.primary, &mut self.standby, seat);
        let wrote = settle(&self.primary, &mut self.standby, wrote);
        let to = self.primary.journal().len();
        (wrote, Span { from, to })
    }

    /// Finds rows by the standby. They are a right answer by the primary's journal, from the events that
    /// were applied when it began to those applied at its end. So far behind the primary's journal it began
    /// at most: events that are no sweeps are as many as records were queued, and none where none was. The
    /// primary stays as it is, and where there is no memory the records that were applied stay applied.
    pub fn find(&mut self, query: Query<O>) -> Result<(Closed, Span), Memory>
        ensures found { IfOk result (λ found. Finds O.meaning self.new.primary.journal query found.0 found.1) }
        ensures from { IfOk result (λ found. found.1.from ≡ self.old.follower.applied) }
        ensures to { IfOk result (λ found. found.1.to ≡ self.new.follower.applied) }
        ensures order { self.old.follower.applied ≤ self.new.follower.applied }
        ensures within { self.new.follower.applied ≤ length self.new.primary.journal }
        ensures behind { IsBehind self.old.primary.journal self.old.follower.applied (length self.old.queue) }
        ensures primary { self.new.primary ≡ self.old.primary }
        ensures queued { length self.new.queue ≤ length self.old.queue }
        ensures lag { self.new.lag ≡ self.old.lag }
    {
        find(
            &self.primary,
            &mut self.standby.follower,
            &mut self.standby.queue,
            SeatNo::first(),
            query,
        )
    }

    /// How many records are queued.
    pub fn queued(&self) -> usize
        ensures { result ≡ length self.now.queue }
    {
        self.standby.queue.records.len()
    }

    /// The primary alone. It takes no memory.
    pub fn into_primary(self) -> State<O>
        ensures { result ≡ self.primary }
    {
        self.primary
    }

    /// The primary, which has nothing open.
    pub fn primary(&self) -> &State<O>
        ensures value { result.now ≡ self.now.primary }
        ensures closed { AllClosed (past_of result.now) }
    {
        &self.primary
    }

    /// The standby. It is so far behind the primary's journal at most: events that are no sweeps are as many
    /// as records are queued, and none where none is.
    pub fn follower(&self) -> &Follower<O>
        ensures value { result.now ≡ self.now.follower }
        ensures within { self.now.follower.applied ≤ length self.now.primary.journal }
        ensures behind { IsBehind self.now.primary.journal self.now.follower.applied (length self.now.queue) }
    {
        &self.standby.follower
    }

    /// The same, where the primary takes no writes and each seat of the standby may search.
    pub fn pause(self) -> Paused<O>
        ensures { result ≡ self }
    {
        Paused {
            primary: self.primary,
            standby: self.standby,
        }
    }
}
