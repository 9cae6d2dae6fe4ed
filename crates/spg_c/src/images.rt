// Images in memory.
ghost use Rattle.std.specs.Prelude.{◌≡◌, Some as Just, IfOk, IfErr};
ghost use Rattle.spg_io.specs.Files.{bytes_under};
ghost use Rattle.spg_image.specs.Image.{image_of};
ghost use Rattle.spg_image.specs.Verifying.{IsLoadOf};
ghost use Rattle.spg_c.specs.Calls.{IsLimit};
ghost use Rattle.spg_c.specs.Images.{BadFrom, HoldsOne, bytes_in};

use crate::refused::{LoadRefused, Refused};
use spg_io::PlainImages;
use spgist::{Bytes, ImageRefused, Index, Memory, OpClass, SaveRefused, load_index, save};
use std::alloc::Global;

/// The one name in memory.
pub(crate) const NAME: &str = "image";

/// The image of an index, in memory.
pub(crate) fn image_in<O: OpClass>(alloc: Global, index: &Index<O>) -> Result<PlainImages, Refused>
    ensures { HoldsOne (image_of O.code_number index.now.table) (bytes_in NAME.now result) }
{
    let mut images = PlainImages::new(alloc);
    match save(index.state(), &mut images, NAME) {
        Ok(_) => Ok(images),
        Err(SaveRefused::Memory) => Err(Refused::Memory),
        // No call on images in memory fails.
        Err(SaveRefused::ImageFault) => unreachable!(),
    }
}

/// Images in memory with these bytes.
fn images_with(alloc: Global, bytes: &[u8]) -> Result<PlainImages, Memory>
    ensures { IfOk result (λ images. bytes_under images NAME.now ≡ Just bytes.now) }
{
    let mut images = PlainImages::new(alloc);
    images.set(NAME, Bytes::copy(alloc, bytes)?)?;
    Ok(images)
}

/// The index of a class whose image these bytes are.
pub(crate) fn index_from<O: OpClass>(
    alloc: Global,
    class: O,
    limit: u32,
    bytes: &[u8],
) -> Result<Index<O>, LoadRefused>
    ensures ok { IfOk result (λ index. IsLimit limit × IsLoadOf O.meaning O.code_number limit (Just bytes.now) index) }
    ensures err { IfErr result (λ e. BadFrom O.meaning O.code_number limit bytes.now e) }
{
    if limit < 4 || 131_072 < limit {
        return Err(LoadRefused::Range);
    }
    let Ok(mut images) = images_with(alloc, bytes) else {
        return Err(LoadRefused::Memory);
    };
    match load_index(alloc, class, &mut images, NAME, limit) {
        Ok(index) => Ok(index),
        Err(ImageRefused::BadImage { block, reason }) => Err(LoadRefused::Image { block, reason }),
        Err(ImageRefused::Memory) => Err(LoadRefused::Memory),
        Err(ImageRefused::ImageFault) => unreachable!(),
    }
}
