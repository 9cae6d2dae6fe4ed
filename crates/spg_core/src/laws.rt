ghost use Rattle.spg_core.specs.Runs.{RunsKeep};
ghost use Rattle.spg_core.specs.RunsBounded.{RunsBounded};
ghost use Rattle.spg_core.specs.Calls.{CallsKeep};

use spg_opclass::OpClass;

/// Calls of any seats in any order, each made as its conditions allow, keep all that a state keeps:
/// the journal is legal and each closed scan and vacuum is right, the pages are well formed and hold
/// just the rows that are present, and each open operation is what its stage says. The events of each
/// seat are those of its calls, in order.
pub fn call_laws<O: OpClass>()
    ensures { RunsKeep O O.Key O.Recon O.Cond O.meaning }
{}

/// So do any calls that a clause `call` of a state or an index tells, one after another, from a state
/// on of which `journal` tells that it is whole. They keep its class.
pub fn seen_laws<O: OpClass>()
    ensures { CallsKeep O O.Key O.Recon O.Cond O.meaning }
{}

/// They keep the account of pages and clock too.
pub fn bound_laws<O: OpClass>()
    ensures { RunsBounded O O.Key O.Recon O.Cond O.meaning }
{}
