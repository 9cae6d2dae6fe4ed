ghost use Rattle.std.specs.Prelude.{◌<◌, IfOk, OnErr};
ghost use Rattle.spg_opclass.specs.declared.query.Query.TheVariants.{All};
ghost use Rattle.spg_core.specs.Seen.{past_of};
ghost use Rattle.spg_whole.specs.Calls.{AllClosed, FindsNone};
ghost use Rattle.spg_served.specs.Serves.{IsServed};

use spg_base::{Memory, Point, SeatNo};
use spg_core::State;
use spg_nearest::Nearest;
use spg_script::Spoken;
use std::alloc::Global;

/// A class of scripts, which finds the rows nearest to a point where its keys are points.
pub trait Served: Spoken {
    /// The rows nearest to a point, `limit` at most. None exactly where the point is no key of the class;
    /// then nothing is done. No seat has anything open, before and after. The pages stay as they are, and
    /// the journal has two events more: a scan of all rows that opens, and is left. After a refusal
    /// nothing was found.
    fn near(
        alloc: Global,
        state: &mut State<Self>,
        seat: SeatNo,
        target: Point,
        limit: u16,
    ) -> Result<Option<Nearest>, Memory>
        requires closed { AllClosed (past_of state.old) }
        requires some { 0 < limit }
        ensures ok { IfOk result (λ found. IsServed Self.meaning Self.speech state.old state.new seat target limit found) }
        ensures err { OnErr result (FindsNone state.old state.new seat All) };
}
