// Why a call was not done, and what C is told of it.
ghost use Rattle.std.specs.Prelude.{◌≡◌};
ghost use Rattle.spg_c.specs.Tells.{kept_out_as};
ghost use Rattle.spg_c.specs.Told.{number_of, reason_number, told_as};
ghost use Rattle.spg_c.specs.declared.refused.Refused.TheVariants as refused;

use spgist::{InsertRefused, Memory, Reason};

/// Why a call was not done.
#[derive(Clone, Copy, Debug, PartialEq, Eq)]
pub enum Refused {
    /// Want of memory.
    Memory,
    /// An argument is out of its range.
    Range,
    /// The handle has no index.
    Closed,
    /// An insert of the row was put and not swept since.
    Used,
    /// The index is full.
    Full,
    /// The clock is at its end.
    Clock,
    /// The row is not live.
    Absent,
    /// The index is of another class.
    Class,
}

/// Why no index was made of bytes.
#[derive(Clone, Copy, Debug, PartialEq, Eq)]
pub enum LoadRefused {
    /// Want of memory.
    Memory,
    /// The class or the limit is out of its range.
    Range,
    /// They are no image of such an index: the clause of this name fails at this block.
    Image { block: u32, reason: Reason },
}

impl Refused {
    /// The number that C is told, from 1 on.
    pub(crate) fn number(self) -> u32
        ensures { result ≡ number_of self }
    {
        match self {
            Refused::Memory => 1,
            Refused::Range => 2,
            Refused::Closed => 3,
            Refused::Used => 4,
            Refused::Full => 5,
            Refused::Clock => 6,
            Refused::Absent => 7,
            Refused::Class => 8,
        }
    }
}

/// The number of an answer.
pub(crate) fn told(done: Result<(), Refused>) -> u32
    ensures { result ≡ told_as done }
{
    match done {
        Ok(()) => 0,
        Err(refused) => refused.number(),
    }
}

/// The number of a reason, from 0 on, in the order of docs/FORMAT.md.
pub(crate) fn number_of_reason(reason: Reason) -> u32
    ensures { result ≡ reason_number reason }
{
    match reason {
        Reason::Missing => 0,
        Reason::Length => 1,
        Reason::Header => 2,
        Reason::Class => 3,
        Reason::Meta => 4,
        Reason::Items => 5,
        Reason::Tuple => 6,
        Reason::Kind => 7,
        Reason::Root => 8,
        Reason::Redirect => 9,
        Reason::Target => 10,
        Reason::Count => 11,
        Reason::Circle => 12,
        Reason::Key => 13,
        Reason::Row => 14,
    }
}

impl From<Memory> for Refused {
    ghost from_gives = { λ _ e. e ≡ refused.Memory };

    fn from(_: Memory) -> Refused {
        Refused::Memory
    }
}

impl From<InsertRefused> for Refused {
    ghost from_gives = { λ why e. e ≡ kept_out_as why };

    fn from(why: InsertRefused) -> Refused {
        match why {
            InsertRefused::RowUsed => Refused::Used,
            InsertRefused::IndexFull => Refused::Full,
            InsertRefused::ClockFull => Refused::Clock,
            InsertRefused::Memory => Refused::Memory,
        }
    }
}
