ghost use Rattle.spg_chain.specs.Joined.{LeafPages, SweptThenAged, RootSwept, RootsLead};

use spg_opclass::OpClass;

/// How the calls on a page make the step of the laws of a vacuum.
pub fn page_call_laws<O: OpClass>()
    ensures leaf { LeafPages O.meaning }
    ensures joined { SweptThenAged }
    ensures root { RootSwept }
    ensures leads { RootsLead }
{}
