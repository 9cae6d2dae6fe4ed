// An index from its image.
ghost use Rattle.std.specs.Prelude.{◌≡◌, ◌≤◌, IfOk, MatchResult};
ghost use Rattle.spg_io.specs.Held.{Holds, Stays};
ghost use Rattle.spg_verify.specs.Refusals.{IfBad, HasImageCause};
ghost use Rattle.spg_verify.specs.Verdict.{FailsFirst};
ghost use Rattle.spg_image.specs.Verifying.{IsLoadOf, IsMade};
ghost use Rattle.spg_core.specs.Seen.{past_of};
ghost use Rattle.spg_whole.specs.Calls.{AllClosed};

use spg_core::State;
use spg_image::{ImageRefused, load};
use spg_io::Images;
use spg_opclass::OpClass;
use spg_whole::Index;
use std::alloc::Global;

/// The index of a class whose image stands under a name, of at most `limit` pages, 4 to 131,072, or as many as the image
/// has where these are more. `BadImage` exactly where a clause fails, with the first that does. Its journal
/// begins with the insert of each entry.
pub fn load_index<O: OpClass, M: Images>(
    alloc: Global,
    class: O,
    images: &mut M,
    name: &str,
    limit: u32,
) -> Result<Index<O>, ImageRefused>
    requires from { 4 ≤ limit }
    requires to { limit ≤ 131072 }
    ensures value { Holds (M.held images.old) name.now (λ held. MatchResult result (λ index. IsLoadOf O.meaning O.code_number limit held index) (λ e. IfBad e (λ f. FailsFirst O.meaning O.code_number limit held f))) }
    ensures made { IfOk result (λ index. IsMade O.meaning O.code_number limit (M.held images.old) name.now index) }
    ensures stays { Stays (M.held images.old) (M.held images.new) }
    ensures cause { HasImageCause (M.faults images.old) (M.faults images.new) result }
{
    match load(alloc, class, images, name, limit) {
        Ok(state) => Ok(Index::of(state)),
        Err(refused) => Err(refused),
    }
}
