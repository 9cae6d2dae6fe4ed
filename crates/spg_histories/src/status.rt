ghost use Rattle.std.specs.Prelude.{◌≡◌};
ghost use Rattle.spg_histories.specs.Ending.{code_of};

use spg_clauses::Reason;

/// How a run of the program ended.
#[derive(Clone, Copy, Debug, PartialEq, Eq)]
pub enum Status {
    /// All was done.
    Done,
    /// The words are none that the program knows.
    Usage,
    /// This line of the script, counted from 1, is bad; 0 where the script is too long.
    BadScript(u32),
    /// The source failed.
    ReadFault,
    /// The sink failed.
    WriteFault,
    /// The images failed.
    ImageFault,
    /// The bytes under a name are no image that the command can take: the clause of this name fails at
    /// this block, and no earlier one.
    BadImage { block: u32, reason: Reason },
    /// There was no memory.
    Memory,
    /// An index that was to be built has more entries than its pages may hold.
    Full,
}

impl Status {
    /// The status that the process ends with.
    pub fn code(&self) -> u8
        ensures { result ≡ code_of self.now }
    {
        match self {
            Status::Done => 0,
            Status::Usage => 2,
            Status::BadScript(_) => 3,
            Status::ReadFault => 4,
            Status::WriteFault => 5,
            Status::ImageFault => 6,
            Status::BadImage { .. } => 7,
            Status::Memory => 8,
            Status::Full => 9,
        }
    }
}
