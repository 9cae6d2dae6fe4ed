//! Laws of a vacuum's sections: how many come at most.
#![tactic(auto)]

ghost use Rattle.spg_sweeps.specs.Sweeps.{OpensOnce, SweepsFall};

use spg_opclass::OpClass;

/// Each section of a vacuum that handles a block or a place leaves fewer to come. Sections of other seats
/// leave the vacuum as it is, so this holds whatever they do in between: at most 131,072 pages.
pub fn sweep_laws<O: OpClass>()
    ensures opens { OpensOnce }
    ensures falls { SweepsFall O.meaning }
{}
