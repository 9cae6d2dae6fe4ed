// What a look at the index answers.
use spg_base::{SeatNo, Stat};
use spg_tree::PageTable;

/// The counts of the index, as it stood at a position of the journal.
#[derive(Clone, Copy, Debug, PartialEq, Eq)]
pub struct StatAnswer {
    /// Pages, tuples of each kind, the clock.
    pub stat: Stat,
    /// How long the journal was.
    pub at: u64,
}

/// Who is waited for until a row may be inserted again, at a position of the journal.
#[derive(Clone, Copy, Debug, PartialEq, Eq)]
pub struct HeldAnswer {
    /// The seat. None where nobody is waited for.
    pub by: Option<SeatNo>,
    /// How long the journal was.
    pub at: u64,
}

/// What came of a copy of a row's key.
#[derive(Drop)]
pub enum KeyAnswer<K> {
    /// The key, or that it is a null, where the journal was so long. None where the row was free.
    Copied { key: Option<Option<K>>, at: u64 },
    /// Want of memory, where the journal was so long.
    Memory(u64),
}

/// What came of a copy of the pages.
#[derive(Drop)]
pub enum PagesAnswer {
    /// The pages as they stood where the journal was so long.
    Copied { pages: PageTable, at: u64 },
    /// Want of memory, where the journal was so long.
    Memory(u64),
}
