//! Laws of images that were saved: `load` takes what `save` wrote, with the same pages and entries, and
//! `verify` counts them.
#![tactic(auto)]

ghost use Rattle.spg_saved.specs.Saved.{SavedIsGood, SavedIsImage};
ghost use Rattle.spg_saved.specs.Answers.{SavedLoads, SavedVerifies};

use spg_opclass::OpClass;

/// Bytes that read as an image of well formed pages meet all clauses, and spell the image's table. So
/// what `load` and `verify` answer of the image that `save` left under a name is the state with the
/// saved pages and entries, and their numbers, or that memory ran out or the images failed.
pub fn saved_laws<O: OpClass>()
    ensures good { SavedIsGood O.meaning O.code_number }
    ensures image { SavedIsImage }
    ensures loads { SavedLoads O O.Key O.Recon O.Cond O.meaning O.code_number }
    ensures verifies { SavedVerifies }
{}
