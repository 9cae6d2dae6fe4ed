/// What came of a write.
#[derive(Clone, Copy, Debug, PartialEq, Eq)]
pub enum Wrote {
    /// The row was put.
    Added,
    /// The row is claimed.
    RowUsed,
    /// There was no room for it.
    IndexFull,
    /// The clock stands at its end.
    ClockFull,
    /// The row was deleted.
    Killed,
    /// The row is not live.
    NotLive,
    /// So many rows were swept.
    Vacuumed(u64),
    /// There was no memory: for the write, which was given up then, or for the standby to follow it.
    Memory,
}
