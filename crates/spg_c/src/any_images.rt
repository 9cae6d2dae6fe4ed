// An index of whichever class and its image.
ghost use Rattle.spg_c.specs.Images.{ImageTold, MakesFrom, bytes_in};

use crate::any::AnyIndex;
use crate::class::Class;
use crate::images::{NAME, image_in, index_from};
use crate::refused::{LoadRefused, Refused};
use spg_io::PlainImages;
use spgist::{Kd, Quad, Radix};
use std::alloc::Global;

impl AnyIndex {
    /// The image, in memory.
    pub(crate) fn image(&self, alloc: Global) -> Result<PlainImages, Refused>
        ensures { ImageTold self.now (bytes_in NAME.now result) }
    {
        match self {
            AnyIndex::Quad(index) => image_in(alloc, index),
            AnyIndex::Kd(index) => image_in(alloc, index),
            AnyIndex::Radix(index) => image_in(alloc, index),
            AnyIndex::Nothing => Err(Refused::Closed),
        }
    }

    /// The index of a class whose image these bytes are.
    pub(crate) fn from_image(
        alloc: Global,
        class: Class,
        limit: u32,
        bytes: &[u8],
    ) -> Result<AnyIndex, LoadRefused>
        ensures { MakesFrom class limit bytes.now result }
    {
        match class {
            Class::Quad => Ok(AnyIndex::Quad(index_from(alloc, Quad, limit, bytes)?)),
            Class::Kd => Ok(AnyIndex::Kd(index_from(alloc, Kd, limit, bytes)?)),
            Class::Radix => Ok(AnyIndex::Radix(index_from(alloc, Radix, limit, bytes)?)),
        }
    }
}
