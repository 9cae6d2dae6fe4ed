ghost use Rattle.spg_calls.specs.Calls.{CallsAdd};
ghost use Rattle.spg_calls.specs.Doing.{DoingTells};
ghost use Rattle.spg_calls.specs.Swept.{SweepsTell};

// Laws of calls. Nothing runs here: a law is proved where a contract names it.

use spg_opclass::OpClass;

/// The sections of a seat add up to calls.
pub fn call_laws<O: OpClass>()
    ensures { CallsAdd O O.Key O.Recon O.Cond }
{}

/// What a seat does is told by its own events. Where a vacuum is open, the rows swept since it opened
/// are those that its seat swept.
pub fn doing_laws<O: OpClass>()
    ensures doing { DoingTells O O.Key O.Recon O.Cond }
    ensures swept { SweepsTell O O.Key O.Recon O.Cond }
{}
