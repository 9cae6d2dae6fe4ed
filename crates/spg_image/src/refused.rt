ghost use Rattle.std.specs.Prelude.{◌≡◌};
ghost use Rattle.spg_io.specs.declared.sink.IoRefused.TheVariants as io;
ghost use Rattle.spg_image.specs.Refusals.{refusal_of};

use spg_io::IoRefused;

/// Why an image was not saved.
#[derive(Clone, Copy, Debug, PartialEq, Eq, thiserror::Error)]
pub enum SaveRefused {
    /// A call on the images failed.
    #[error("the images failed")]
    ImageFault,
    /// Want of memory.
    #[error("out of memory")]
    Memory,
}

impl From<IoRefused> for SaveRefused {
    ghost from_gives = { λ refused e. e ≡ refusal_of refused };

    fn from(refused: IoRefused) -> SaveRefused {
        match refused {
            IoRefused::Failed => SaveRefused::ImageFault,
            IoRefused::Memory => SaveRefused::Memory,
        }
    }
}
