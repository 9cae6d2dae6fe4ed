ghost use Rattle.std.specs.Prelude.{◌≡◌};
ghost use Rattle.spg_core.specs.declared.answer.OpenRefused.TheVariants as refused;
ghost use Rattle.spg_core.specs.declared.answer.VacuumRefused.TheVariants as vacuum_refused;

use spg_base::{Block, Memory, SeatNo};

/// Why an insert was not opened.
#[derive(Clone, Copy, Debug, PartialEq, Eq, thiserror::Error)]
pub enum OpenRefused {
    /// The row is claimed, and waits for nobody.
    #[error("the row is in use")]
    RowUsed,
    /// The entry of the row was swept, and this seat is waited for: that of the vacuum until it ends,
    /// and then the lowest one whose scan was open at that end and still is.
    #[error("seat {by} holds the row")]
    RowHeld { by: SeatNo },
    /// Want of memory.
    #[error("out of memory")]
    Memory,
}

impl From<Memory> for OpenRefused {
    ghost from_gives = { λ _ e. e ≡ refused.Memory };

    fn from(_: Memory) -> OpenRefused {
        OpenRefused::Memory
    }
}

/// Why a vacuum was not opened.
#[derive(Clone, Copy, Debug, PartialEq, Eq, thiserror::Error)]
pub enum VacuumRefused {
    /// This seat has a vacuum open.
    #[error("seat {by} has a vacuum open")]
    Open { by: SeatNo },
    /// Want of memory.
    #[error("out of memory")]
    Memory,
}

impl From<Memory> for VacuumRefused {
    ghost from_gives = { λ _ e. e ≡ vacuum_refused.Memory };

    fn from(_: Memory) -> VacuumRefused {
        VacuumRefused::Memory
    }
}

/// What a section of an insert did.
#[derive(Clone, Copy, Debug, PartialEq, Eq)]
pub enum InsertOut {
    /// It came to the root, or from an inner tuple to the child or the empty downlink of a node.
    Descended,
    /// The leaves were divided without its own, and it goes on from the new inner tuple; or a node was
    /// put into the inner tuple at which it stood, and it goes on from that tuple; or that tuple was
    /// split, and it goes on from the upper of the two.
    Restructured,
    /// Another seat holds the block of the root or child to be visited; it is back at its start.
    Restarted { block: Block, by: SeatNo },
    /// The row stands in the index, and the insert has ended.
    Put,
}

/// What came of the sections of an insert, one after another.
#[derive(Clone, Copy, Debug, PartialEq, Eq)]
pub enum InsertRan {
    /// The row stands in the index, and the insert has ended.
    Put,
    /// Another seat holds the block of the root or child to be visited; it is back at its start.
    Restarted { block: Block, by: SeatNo },
}

/// What a section of a vacuum did.
#[derive(Clone, Copy, Debug, PartialEq, Eq)]
pub enum VacuumOut {
    /// It handled the next block.
    Block,
    /// It handled the first place of its pending list that was not done.
    Pending,
    /// Another seat holds the block to be handled, and nothing was done.
    Latched { block: Block, by: SeatNo },
    /// It was at its end, and is closed. It swept this many rows.
    Finished { swept: u64 },
}

/// What a seat has open.
#[derive(Clone, Copy, Debug, PartialEq, Eq)]
pub enum OpenKind {
    /// Nothing.
    Nothing,
    /// An insert.
    Insert,
    /// A scan, which still holds so many items.
    Scan { held: usize },
    /// A vacuum.
    Vacuum,
}
