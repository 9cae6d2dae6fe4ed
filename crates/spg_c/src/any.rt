// An index of one of the classes.
ghost use Rattle.spg_c.specs.Calls.{Makes};

use crate::class::Class;
use crate::refused::Refused;
use spgist::{Index, Kd, Memory, Quad, Radix};
use std::alloc::Global;

/// What a handle keeps: an index of one of the classes, or nothing.
#[derive(Drop)]
pub enum AnyIndex {
    Nothing,
    Quad(Index<Quad>),
    Kd(Index<Kd>),
    Radix(Index<Radix>),
}

impl AnyIndex {
    /// An empty index of a class, of at most so many pages, 4 to 131,072.
    pub(crate) fn new(alloc: Global, class: Class, limit: u32) -> Result<AnyIndex, Refused>
        ensures { Makes class limit result }
    {
        if limit < 4 || 131_072 < limit {
            return Err(Refused::Range);
        }
        match class {
            Class::Quad => match Index::new(alloc, Quad, limit) {
                Ok(index) => Ok(AnyIndex::Quad(index)),
                Err(Memory) => Err(Refused::Memory),
            },
            Class::Kd => match Index::new(alloc, Kd, limit) {
                Ok(index) => Ok(AnyIndex::Kd(index)),
                Err(Memory) => Err(Refused::Memory),
            },
            Class::Radix => match Index::new(alloc, Radix, limit) {
                Ok(index) => Ok(AnyIndex::Radix(index)),
                Err(Memory) => Err(Refused::Memory),
            },
        }
    }
}
