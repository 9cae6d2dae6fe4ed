ghost use Rattle.spg_scan.specs.Examples.{NewScan, OneScan};

// Small scans that hold what they must: what is said of open scans is said of some.

use spg_opclass::OpClass;

/// A scan of a new index holds what it must.
pub fn new_scan<O: OpClass>()
    ensures { NewScan O O.Key O.Recon O.Cond O.meaning }
{}

/// A scan of an index with one entry holds what it must, at its opening and once it has taken the row.
pub fn one_scan<O: OpClass>()
    ensures { OneScan O O.Key O.Recon O.Cond O.meaning }
{}
