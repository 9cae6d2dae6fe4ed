// Opening, saving and loading.
ghost use Rattle.std.specs.Prelude.{◌≡◌};
ghost use Rattle.spg_c.specs.Calls.{Opens};
ghost use Rattle.spg_c.specs.Held.{index_of};
ghost use Rattle.spg_c.specs.Images.{SavesAny, Loads, bytes_in};

use crate::any::AnyIndex;
use crate::class::numbered;
use crate::handle::SpgIndex;
use crate::images::NAME;
use crate::refused::{LoadRefused, Refused};
use spg_io::PlainImages;
use std::alloc::Global;

/// Keeps an empty index of a class.
pub(crate) fn open(
    alloc: Global,
    handle: &mut SpgIndex,
    number: u32,
    limit: u32,
) -> Result<(), Refused>
    ensures { Opens number limit (index_of handle.old) (index_of handle.new) result }
{
    let Some(class) = numbered(number) else {
        return Err(Refused::Range);
    };
    match AnyIndex::new(alloc, class, limit) {
        Ok(index) => match handle.keep(alloc, index) {
            Ok(()) => Ok(()),
            Err(_) => Err(Refused::Memory),
        },
        Err(refused) => Err(refused),
    }
}

/// The image, in memory.
pub(crate) fn image(alloc: Global, handle: &mut SpgIndex) -> Result<PlainImages, Refused>
    ensures { SavesAny (index_of handle.old) (index_of handle.new) (bytes_in NAME.now result) }
{
    let Some(kept) = handle.take() else {
        return Err(Refused::Closed);
    };
    let done = kept.index.image(alloc);
    handle.put(kept);
    done
}

/// Keeps the index of a class whose image these bytes are.
pub(crate) fn load(
    alloc: Global,
    handle: &mut SpgIndex,
    number: u32,
    limit: u32,
    bytes: &[u8],
) -> Result<(), LoadRefused>
    ensures { Loads number limit bytes.now (index_of handle.old) (index_of handle.new) result }
{
    let Some(class) = numbered(number) else {
        return Err(LoadRefused::Range);
    };
    match AnyIndex::from_image(alloc, class, limit, bytes) {
        Ok(index) => match handle.keep(alloc, index) {
            Ok(()) => Ok(()),
            Err(_) => Err(LoadRefused::Memory),
        },
        Err(refused) => Err(refused),
    }
}
