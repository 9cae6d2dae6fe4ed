// A standby that is searched while its primary stands still.
ghost use Rattle.std.specs.Prelude.{◌≡◌, IfOk, Some, None, OnOk, OnErr};
ghost use Rattle.spg_scan.specs.Scanning.{opened};
ghost use Rattle.spg_standby.specs.Finding.{Offers, Finishes};
ghost use Rattle.spg_standby.specs.Standing.{scan_at, with_scan};

use crate::catching::{end, offer_oldest, open_anew};
use crate::finishing::finish;
use crate::follower::ApplyOut;
use crate::standby::Standby;
use spg_base::{Memory, SeatNo};
use spg_core::State;
use spg_opclass::{OpClass, Query};
use spg_scan::Closed;
use std::marker::Model;

/// A pair whose primary takes no writes: each seat of its standby may have a scan open, and the records that
/// are queued are offered to it one by one.
#[derive(Drop)]
pub struct Paused<O: OpClass> {
    pub(crate) primary: State<O>,
    pub(crate) standby: Standby<O>,
}

impl<O: OpClass> Model for Paused<O> {
    ghost use Rattle.spg_standby.specs.Pair.{IsPaired};
    ghost use Rattle.spg_standby.specs.Twin.{Twin, paused_of};

    ghost Value = { Twin O O.Key O.Recon O.Cond };

    ghost view = { paused_of };

    ghost invariant = { λ p. IsPaired O.meaning p.primary p.standby.follower p.standby.queue.records.items };
}

impl<O: OpClass> Paused<O> {
    /// Opens a scan of the standby over the events that it has applied, at a seat. What the seat had open is
    /// ended, also where there is no memory.
    pub fn open(&mut self, seat: SeatNo, query: Query<O>) -> Result<(), Memory>
        ensures ok { OnOk result (self.new.follower ≡ with_scan self.old.follower seat (Some (opened O.meaning query self.old.follower.applied self.old.follower.table.clock))) }
        ensures err { OnErr result (self.new.follower ≡ with_scan self.old.follower seat None) }
        ensures primary { self.new.primary ≡ self.old.primary }
        ensures queue { self.new.queue ≡ self.old.queue }
        ensures lag { self.new.lag ≡ self.old.lag }
    {
        open_anew(
            &self.primary,
            &mut self.standby.follower,
            &self.standby.queue,
            seat,
            query,
        )
    }

    /// Ends what a seat has open.
    pub fn leave(&mut self, seat: SeatNo)
        ensures follower { self.new.follower ≡ with_scan self.old.follower seat None }
        ensures primary { self.new.primary ≡ self.old.primary }
        ensures queue { self.new.queue ≡ self.old.queue }
        ensures lag { self.new.lag ≡ self.old.lag }
    {
        end(
            &self.primary,
            &mut self.standby.follower,
            &self.standby.queue,
            seat,
        );
    }

    /// Reads the scan of a seat to its end, and ends it, also where there is no memory. None where the seat has
    /// none open. Its rows are a right answer by the primary's journal, from the events that were applied when
    /// it opened to those that are applied now.
    pub fn finish(&mut self, seat: SeatNo) -> Result<Option<Closed>, Memory>
        ensures ok { IfOk result (λ out. Finishes O.meaning self.old.primary.journal self.old.follower.applied (scan_at self.old.follower seat) out) }
        ensures follower { self.new.follower ≡ with_scan self.old.follower seat None }
        ensures primary { self.new.primary ≡ self.old.primary }
        ensures queue { self.new.queue ≡ self.old.queue }
        ensures lag { self.new.lag ≡ self.old.lag }
    {
        finish(
            &self.primary,
            &mut self.standby.follower,
            &self.standby.queue,
            seat,
        )
    }

    /// Offers the oldest record to the standby, where one is queued. `Held` exactly where an open scan holds it
    /// back, with the lowest such seat, and nothing changes then, nor after `Memory`. `Applied` takes it off.
    pub fn offer(&mut self) -> Result<Option<ApplyOut>, Memory>
        ensures ok { IfOk result (λ out. Offers O.meaning self.old.primary.journal self.old.follower self.new.follower self.old.queue self.new.queue out) }
        ensures err { OnErr result (self.new.follower ≡ self.old.follower) }
        ensures err_queue { OnErr result (self.new.queue ≡ self.old.queue) }
        ensures primary { self.new.primary ≡ self.old.primary }
        ensures lag { self.new.lag ≡ self.old.lag }
    {
        offer_oldest(
            &self.primary,
            &mut self.standby.follower,
            &mut self.standby.queue,
        )
    }
}
