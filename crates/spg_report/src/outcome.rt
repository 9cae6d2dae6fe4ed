use spg_base::{List, Rows, SeatNo, Stat};
use spg_near::NearRow;

/// What became of a command.
#[derive(Debug, Drop)]
pub enum Outcome {
    /// The row stands in the index.
    Added,
    /// The row was claimed already, and waits for nobody.
    RowUsed,
    /// The row was swept, and waits until what this seat has open has ended.
    RowHeld { by: SeatNo },
    /// The index was full, and the insert was given up.
    Full,
    /// The clock was at its end, and the insert was given up.
    ClockFull,
    /// The row was live, and was killed.
    Killed,
    /// The row was not live, so nothing was done.
    NotLive,
    /// The rows that a scan found, ascending, and outside lanes how many inner, leaf and dead tuples
    /// it met.
    Found { rows: Rows, walk: Option<u64> },
    /// A vacuum has ended, and swept so many rows.
    Vacuumed(u64),
    /// This seat had a vacuum open.
    OpenBy(SeatNo),
    /// So many pages were written.
    Saved(u32),
    /// The images failed.
    ImageFault,
    /// The counts of the index.
    Stat(Stat),
    /// The rows nearest to a point, each with its distance, in order; and how many inner, leaf and dead
    /// tuples the search met.
    Near { rows: List<NearRow>, walk: u64 },
    /// There was no memory.
    Memory,
}
