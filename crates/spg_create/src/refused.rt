use spg_base::Memory;
use spg_build::BuildRefused;
use spg_image::SaveRefused;

/// Why no index is created.
#[derive(Clone, Copy, Debug, PartialEq, Eq, thiserror::Error)]
pub enum CreateRefused {
    /// The rows may need more pages than an index has.
    #[error("the index is full")]
    IndexFull,
    /// A call on the images failed.
    #[error("the images failed")]
    ImageFault,
    /// Want of memory.
    #[error("out of memory")]
    Memory,
}

impl From<Memory> for CreateRefused {
    ghost use Rattle.std.specs.Prelude.{◌≡◌};
    ghost use Rattle.spg_create.specs.declared.refused.CreateRefused.TheVariants.{Memory};

    ghost from_gives = { λ _ e. e ≡ Memory };

    fn from(_: Memory) -> CreateRefused {
        CreateRefused::Memory
    }
}
