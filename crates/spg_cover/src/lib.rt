//! Laws of a vacuum: what it must still sweep is covered, whatever other seats do, and what it does to a page.
#![tactic(auto)]

ghost use Rattle.spg_cover.specs.Vacuum.{KeptByAdds, KeptByLeaves, Finished, Opens, BlockKeeps, PendingKeeps, ListingKeeps, SettlingKeeps, PendingStands, ListedHigh, TakesComing};
ghost use Rattle.spg_cover.specs.Swept.{HandlesLeaves, HandlesRoot, HandlesInner, HandlesNothing, SweptRows};
ghost use Rattle.spg_cover.specs.Run.{SweepsAll};
ghost use Rattle.spg_cover.specs.Examples.{OneSwept, RedirectsAge};

use spg_opclass::OpClass;

/// What a section of another seat keeps.
pub fn others_laws<O: OpClass>()
    ensures adds { KeptByAdds O.meaning }
    ensures leaves { KeptByLeaves O.meaning }
{}

/// What a vacuum does from its opening to its end.
pub fn vacuum_laws<O: OpClass>()
    ensures opens { Opens O.meaning }
    ensures block { BlockKeeps O.meaning }
    ensures pending { PendingKeeps O.meaning }
    ensures listing { ListingKeeps O.meaning }
    ensures settling { SettlingKeeps O.meaning }
    ensures finished { Finished O.meaning }
    ensures stands { PendingStands O.meaning }
    ensures high { ListedHigh O.meaning }
    ensures coming { TakesComing O.meaning }
{}

/// What handling a page does to its tuples, as the forest takes it.
pub fn page_laws<O: OpClass>()
    ensures leaves { HandlesLeaves O.meaning }
    ensures root { HandlesRoot O.meaning }
    ensures inner { HandlesInner O.meaning }
    ensures nothing { HandlesNothing O.meaning }
    ensures rows { SweptRows O.meaning }
{}

/// A vacuum that has come to the end has swept each row that was deleted when it opened, whatever
/// sections of other seats came between.
pub fn whole_laws<O: OpClass>()
    ensures { SweepsAll O.meaning }
{}

/// A small index and a small page that meet the definitions.
pub fn small_laws<O: OpClass>()
    ensures one_swept { OneSwept O.meaning }
    ensures redirects { RedirectsAge }
{}
