// An index whose journal begins anew.
ghost use Rattle.std.specs.Prelude.{◌≡◌, IfOk};
ghost use Rattle.spgist.specs.Builds.{IsRenewed};

use crate::builds::{adopt, count_pages};
use spg_base::Memory;
use spg_copy::copy_table;
use spg_opclass::OpClass;
use spg_whole::Index;
use std::alloc::Global;

/// The same index on a copy of its pages, with a journal that begins anew: it opens and puts each row that is present,
/// with its key, by seat 0, and has nothing else. A row that was deleted and not swept is present, and live in it: so
/// vacuum before. The limit and the clock are as they were.
pub fn renew<O: OpClass>(alloc: Global, index: &Index<O>) -> Result<Index<O>, Memory>
    ensures { IfOk result (λ new. IsRenewed O.meaning index.now new) }
{
    let pages = index.pages();
    count_pages(pages);
    let table = copy_table(alloc, pages)?;
    count_pages(&table);
    let state = adopt(alloc, *index.state().class(), table)?;
    let renewed = Index::of(state);
    // Its pages hold just the rows that are present in it.
    let _ = renewed.pages();
    Ok(renewed)
}
