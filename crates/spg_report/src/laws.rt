ghost use Rattle.spg_report.specs.Text.{PlainWithoutValues};

// Nothing runs here: the law is proved where its contract names it.

use spg_opclass::OpClass;

/// A class whose keys have no numbers prints none.
pub fn plain_without_values<O: OpClass>()
    ensures { PlainWithoutValues O O.Key O.Recon O.Cond }
{}
