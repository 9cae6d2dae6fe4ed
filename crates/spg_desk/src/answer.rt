use spg_base::{List, Rows, SeatNo, Span};
use spg_near::NearRow;

/// What came of an insert. Each answer tells its span: from its first event to one past its last, or
/// twice where it looked, where it did nothing.
#[derive(Clone, Copy, Debug, PartialEq, Eq)]
pub enum InsertAnswer {
    /// The row stands in the index with its key.
    Added(Span),
    /// The row was claimed, and waited for nobody. Nothing was done.
    RowUsed(Span),
    /// The entry of the row was swept, and it waited for this seat. Nothing was done.
    RowHeld { by: SeatNo, span: Span },
    /// No page was to be had, and the insert was given up.
    IndexFull(Span),
    /// The clock stood at its end, and the insert was given up.
    ClockFull(Span),
    /// Want of memory. If the insert was opened it was given up.
    Memory(Span),
}

/// What came of a delete, with its span.
#[derive(Clone, Copy, Debug, PartialEq, Eq)]
pub enum KillAnswer {
    /// The row was live, and is deleted.
    Killed(Span),
    /// The row was not live. Nothing was done.
    NotLive(Span),
    /// Want of memory. Nothing was done.
    Memory(Span),
}

/// What came of a search, with its span.
#[derive(Debug, Drop)]
pub enum FindAnswer {
    /// These rows were found, by block, then offset.
    Found { rows: Rows, span: Span },
    /// Want of memory. If the scan was opened it was given up.
    Memory(Span),
}

/// What came of a search for the nearest rows. Its span is the length of the journal, twice, in the turn
/// in which it was done.
#[derive(Debug, Drop)]
pub enum NearAnswer {
    /// These rows are the nearest, each with the square of its distance, by distance, then row.
    Near { rows: List<NearRow>, span: Span },
    /// Want of memory. Nothing was done.
    Memory(Span),
}

/// What came of a vacuum, with its span.
#[derive(Clone, Copy, Debug, PartialEq, Eq)]
pub enum VacuumAnswer {
    /// It was run to its end, and swept this many rows.
    Vacuumed { swept: u64, span: Span },
    /// This seat had a vacuum open. Nothing was done.
    Open { by: SeatNo, span: Span },
    /// Want of memory. If the vacuum was opened it was given up.
    Memory(Span),
}
