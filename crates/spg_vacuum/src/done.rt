use spg_base::{Block, List, Row, SeatNo};

/// What an open vacuum does next.
#[derive(Clone, Copy, Debug, PartialEq, Eq)]
pub enum Work {
    /// It handles the first place of its pending list that is not done.
    Pending,
    /// It handles the next block.
    Block,
    /// It is at its end.
    Finish,
}

/// What came of a section of a vacuum.
#[derive(Debug, Drop)]
pub enum Done {
    /// It was done. These rows were swept, in the order of the offsets that they had.
    Swept(List<Row>),
    /// Another seat holds the block, and nothing was done.
    Latched { block: Block, by: SeatNo },
}
