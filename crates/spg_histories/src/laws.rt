ghost use Rattle.spg_histories.specs.Exact.{TextSaysAll, ScriptSaysAll};
ghost use Rattle.spg_histories.specs.Blocks.{RunsGrow};
ghost use Rattle.spg_histories.specs.Alone.{OneSeatMeets};
ghost use Rattle.spg_histories.specs.Calls.{CallsCompose};
ghost use Rattle.spg_histories.specs.Telling.{RunsTell};
ghost use Rattle.spg_histories.specs.Causes.{CausesGrow};
ghost use Rattle.spg_histories.specs.Ending.{StatusesTell};

// Laws of runs. Nothing runs here: a law is proved where a contract names it.

use spg_opclass::OpClass;

/// Two runs of one script over one loaded image that print alike are equal.
pub fn text_says_all<O: OpClass>()
    ensures { TextSaysAll O O.Key O.Recon O.Cond }
{}

/// A run begins with a load, and goes on by a command outside lanes, by lanes, or by a block whose lanes can't be made.
pub fn runs_grow<O: OpClass>()
    ensures { RunsGrow O O.Key O.Recon O.Cond }
{}

/// What a run tells of pages and images goes on by one more command, and by lanes.
pub fn runs_tell<O: OpClass, B>()
    ensures { RunsTell O O.Key O.Recon O.Cond B }
{}

/// What each status tells of the records and of writing.
pub fn statuses_tell()
    ensures { StatusesTell }
{}

/// Two runs of a script of bytes over one loaded image that print alike are equal.
pub fn script_says_all<O: OpClass>()
    ensures { ScriptSaysAll O O.Key O.Recon O.Cond }
{}

/// The calls of a lane, one after another, are the lane's run.
pub fn calls_compose<O: OpClass>()
    ensures { CallsCompose O O.Key O.Recon O.Cond }
{}

/// Where one seat does all, the spans follow from the events.
pub fn one_seat_meets<O: OpClass>()
    ensures { OneSeatMeets O O.Key O.Recon O.Cond }
{}

/// The causes of a run go on by one more command, and by lanes.
pub fn causes_grow<O: OpClass>()
    ensures { CausesGrow O O.Key O.Recon O.Cond }
{}
