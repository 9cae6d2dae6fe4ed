ghost use Rattle.std.specs.Prelude.{◌≡◌, ◌≤◌};
ghost use Rattle.spg_words.specs.Reading.{word_in};
ghost use Rattle.spg_app.specs.Beginning.{IsBeginning, outside, status_of};

use spg_core::State;
use spg_histories::Status;
use spg_image::{ImageRefused, load};
use spg_io::Images;
use spg_opclass::OpClass;
use spg_words::RunLine;
use std::alloc::Global;

/// The status of a refused image.
pub fn status_of(refused: ImageRefused) -> Status
    ensures { result ≡ status_of refused }
{
    match refused {
        ImageRefused::BadImage { block, reason } => Status::BadImage { block, reason },
        ImageRefused::ImageFault => Status::ImageFault,
        ImageRefused::Memory => Status::Memory,
    }
}

/// The state with which the commands of a run begin: a new one, or that of the image of this name.
pub fn begin<O: OpClass, M: Images>(
    alloc: Global,
    class: O,
    line: RunLine<'_>,
    images: &mut M,
) -> Result<State<O>, ImageRefused>
    requires from { 4 ≤ line.limit }
    requires to { line.limit ≤ 131072 }
    ensures { IsBeginning O.meaning O.code_number line.entry.limit (word_in line.entry.from) (outside (M.held images.old) (M.faults images.old)) (outside (M.held images.new) (M.faults images.new)) result }
{
    match line.from {
        None => Ok(State::new(alloc, class, line.limit)?),
        Some(name) => load(alloc, class, images, name, line.limit),
    }
}
