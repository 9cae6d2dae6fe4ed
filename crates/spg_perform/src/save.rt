ghost use Rattle.std.specs.Prelude.{◌≡◌, true};
ghost use Rattle.spg_script.specs.Line.{is_name};
ghost use Rattle.spg_perform.specs.Session.{RoseBy, StaysUnless, is_image_fault};
ghost use Rattle.spg_perform.specs.Saved.{IsSaved};

use spg_base::Bytes;
use spg_core::State;
use spg_image::SaveRefused;
use spg_io::Images;
use spg_opclass::OpClass;
use spg_report::Outcome;
use std::str;

/// Saves the pages under a name.
pub(crate) fn save<O: OpClass, M: Images>(state: &State<O>, images: &mut M, name: &Bytes) -> Outcome
    requires { is_name name.now ≡ true }
    ensures saved { IsSaved O.code_number state.now.table (M.held images.old) (M.held images.new) name.now result }
    ensures faults { RoseBy (is_image_fault result) (M.faults images.old) (M.faults images.new) }
    ensures stays { StaysUnless result (M.faults images.old) (M.faults images.new) }
{
    let Ok(name) = str::from_utf8(name.as_slice()) else {
        unreachable!()
    };
    let _ = state.pages().page_count();
    match spg_image::save(state, images, name) {
        Ok(pages) => Outcome::Saved(pages),
        Err(SaveRefused::ImageFault) => Outcome::ImageFault,
        Err(SaveRefused::Memory) => Outcome::Memory,
    }
}
