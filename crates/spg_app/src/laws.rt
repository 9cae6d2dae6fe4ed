ghost use Rattle.spg_app.specs.Alike.{RunsSayAll};

use spg_opclass::OpClass;

// Nothing runs here: the law is proved where its contract names it.

/// Two runs of one script whose texts were taken whole and are alike did the same.
pub fn runs_say_all<O: OpClass>()
    ensures { RunsSayAll O O.Key O.Recon O.Cond }
{}
