// What comes of the sections of a call.
use spg_base::Rows;
use spg_opclass::{Bunch, Copied, OpClass, Spotted};

/// How an insert ended.
#[derive(Clone, Copy, Debug, PartialEq, Eq)]
pub(crate) enum Ended {
    /// The row was put.
    Put,
    /// It was given up: no page was to be had.
    Full,
    /// It was given up: the clock stood at its end.
    Clock,
    /// It was given up for want of memory.
    Refused,
}

/// What came of a look at an insert.
#[derive(Drop)]
pub(crate) enum Looked<O: OpClass> {
    /// A section was done. None where the insert goes on.
    Stepped(Option<Ended>),
    /// The class is to choose for this copy.
    Choose(Spotted<O>),
    /// The class is to divide these copied values.
    Part(Bunch<O>),
}

/// What came of a section of a scan.
#[derive(Drop)]
pub(crate) enum Read<O: OpClass> {
    /// It goes on.
    On,
    /// The class is to sift the copy of this item.
    Sift { item: usize, copied: Copied<O> },
    /// It was closed with these rows.
    Closed(Rows),
    /// It was given up for want of memory.
    Refused,
}

/// What came of a section of a vacuum.
#[derive(Clone, Copy, Debug, PartialEq, Eq)]
pub(crate) enum Swept {
    /// It goes on.
    On,
    /// It was closed, and swept so many rows.
    Closed(u64),
    /// It was given up for want of memory.
    Refused,
}
