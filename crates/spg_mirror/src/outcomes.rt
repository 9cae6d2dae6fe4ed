// The outcomes of what the calls of a pair answer.
ghost use Rattle.std.specs.Prelude.{◌≡◌};
ghost use Rattle.spg_mirror.specs.Outcomes.{wrote_outcome, found_outcome};

use spg_report::Outcome;
use spg_scan::Closed;
use spg_standby::Wrote;

pub(crate) fn wrote_outcome(wrote: Wrote) -> Outcome
    ensures { result ≡ wrote_outcome wrote }
{
    match wrote {
        Wrote::Added => Outcome::Added,
        Wrote::RowUsed => Outcome::RowUsed,
        Wrote::IndexFull => Outcome::Full,
        Wrote::ClockFull => Outcome::ClockFull,
        Wrote::Killed => Outcome::Killed,
        Wrote::NotLive => Outcome::NotLive,
        Wrote::Vacuumed(swept) => Outcome::Vacuumed(swept),
        Wrote::Memory => Outcome::Memory,
    }
}

/// How many tuples a standby met is not told.
pub(crate) fn found_outcome(closed: Closed) -> Outcome
    ensures { result ≡ found_outcome closed }
{
    Outcome::Found {
        rows: closed.rows,
        walk: None,
    }
}
