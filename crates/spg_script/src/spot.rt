ghost use Rattle.std.specs.Prelude.{◌≡◌};
ghost use Rattle.spg_script.specs.Wanting.{class_spot, next_spot};

use crate::class_line::ClassLine;
use crate::key_form::KeyForm;

/// What has come before a line, as far as it tells what the line may be.
#[derive(Clone, Copy, Debug, PartialEq, Eq)]
pub enum Spot {
    /// No line named a class.
    Start,
    /// No block is open.
    Between { keys: KeyForm },
    /// A block is open, and no lane has begun.
    Block { keys: KeyForm },
    /// A lane goes on.
    Lane { keys: KeyForm },
}

/// What has come before the line behind this one, where no line before named a class.
fn class_spot(line: &[u8]) -> Spot
    ensures { result ≡ class_spot line.now }
{
    match ClassLine::of_line(line) {
        Some(class) => Spot::Between { keys: class.keys() },
        None => Spot::Start,
    }
}

impl Spot {
    /// What has come before the line behind this one.
    pub fn after(self, line: &[u8]) -> Spot
        ensures { result ≡ next_spot self line.now }
    {
        match self {
            Spot::Start => class_spot(line),
            Spot::Between { keys } if line == b"together".as_slice() => Spot::Block { keys },
            Spot::Block { keys } if line == b"lane".as_slice() => Spot::Lane { keys },
            Spot::Lane { keys } if line == b"end".as_slice() => Spot::Between { keys },
            spot => spot,
        }
    }
}
