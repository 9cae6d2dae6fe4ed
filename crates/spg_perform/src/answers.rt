// The outcomes of what the calls of an index answer.
ghost use Rattle.std.specs.Prelude.{◌≡◌};
ghost use Rattle.spg_commands.specs.Outcomes.{insert_outcome, delete_outcome, find_outcome, vacuum_outcome};
ghost use Rattle.spg_perform.specs.Outcomes.{near_outcome, IsAnswered};

use spg_base::Memory;
use spg_core::Closed;
use spg_report::Outcome;
use spg_served::Nearest;
use spg_whole::InsertRefused;

pub(crate) fn insert_outcome(inserted: Result<(), InsertRefused>) -> Outcome
    ensures { result ≡ insert_outcome inserted }
{
    match inserted {
        Ok(()) => Outcome::Added,
        Err(InsertRefused::RowUsed) => Outcome::RowUsed,
        Err(InsertRefused::IndexFull) => Outcome::Full,
        Err(InsertRefused::ClockFull) => Outcome::ClockFull,
        Err(InsertRefused::Memory) => Outcome::Memory,
    }
}

pub(crate) fn delete_outcome(deleted: Result<bool, Memory>) -> Outcome
    ensures { result ≡ delete_outcome deleted }
{
    match deleted {
        Ok(true) => Outcome::Killed,
        Ok(false) => Outcome::NotLive,
        Err(Memory) => Outcome::Memory,
    }
}

pub(crate) fn find_outcome(found: Result<Closed, Memory>) -> Outcome
    ensures { result ≡ find_outcome found }
{
    match found {
        Ok(closed) => Outcome::Found {
            rows: closed.rows,
            walk: Some(closed.met),
        },
        Err(Memory) => Outcome::Memory,
    }
}

/// A class of points has been asked.
pub(crate) fn near_outcome(found: Result<Option<Nearest>, Memory>) -> Outcome
    requires { IsAnswered found }
    ensures { result ≡ near_outcome found }
{
    match found {
        Ok(Some(nearest)) => Outcome::Near {
            rows: nearest.rows,
            walk: nearest.met,
        },
        Ok(None) => unreachable!(),
        Err(Memory) => Outcome::Memory,
    }
}

pub(crate) fn vacuum_outcome(swept: Result<u64, Memory>) -> Outcome
    ensures { result ≡ vacuum_outcome swept }
{
    match swept {
        Ok(swept) => Outcome::Vacuumed(swept),
        Err(Memory) => Outcome::Memory,
    }
}
