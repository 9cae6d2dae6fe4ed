ghost use Rattle.std.specs.Prelude.{◌≡◌};
ghost use Rattle.spg_core.specs.declared.look.ApplyRefused.TheVariants as refused;

use crate::answer::InsertOut;
use spg_base::Memory;
use spg_opclass::{Bunch, OpClass, Spotted};

/// What came of a look at an open insert.
#[derive(Drop)]
pub enum Look<O: OpClass> {
    /// The class has no say in the next section, and this came of it.
    Stepped(InsertOut),
    /// The insert stands at an inner tuple of the main tree. This is a copy of it.
    Choose(Spotted<O>),
    /// Leaves of the main tree are to be divided. This is a copy of their values.
    Part(Bunch<O>),
}

/// Why a section was not done by what the class answered.
#[derive(Clone, Copy, Debug, PartialEq, Eq, thiserror::Error)]
pub enum ApplyRefused {
    /// A look would not give the copy that the class was asked with.
    #[error("the page has changed since it was looked at")]
    Changed,
    /// No page is to be had.
    #[error("the index is full")]
    IndexFull,
    /// The clock stands at its end.
    #[error("the clock is at its end")]
    ClockFull,
    /// Want of memory.
    #[error("out of memory")]
    Memory,
}

impl From<Memory> for ApplyRefused {
    ghost from_gives = { λ _ e. e ≡ refused.Memory };

    fn from(_: Memory) -> ApplyRefused {
        ApplyRefused::Memory
    }
}
