ghost use Rattle.spg_vacuum.specs.Kept.{OpensVacuum, AddsKeepVacuum, LeavesKeepVacuum};

use spg_opclass::OpClass;

/// A vacuum at its opening, and what the sections of other seats leave of it.
pub fn vacuum_laws<O: OpClass>()
    ensures opens { OpensVacuum O.meaning }
    ensures adds { AddsKeepVacuum O.meaning }
    ensures leaves { LeavesKeepVacuum O.meaning }
{}
