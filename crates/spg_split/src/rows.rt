ghost use Rattle.std.specs.Prelude.{◌≡◌, ◌++◌, ◌∷◌, [], IfOk};
ghost use Rattle.spg_forest.specs.Links.{leaves_on};
ghost use Rattle.spg_chain.specs.Chains.{chain_members, leaves_of};
ghost use Rattle.spg_descend.specs.Carried.{carried};
ghost use Rattle.spg_split.specs.Dividing.{AreAllLive, rows_of};

use spg_base::{List, Memory, Offset, Rows};
use spg_chain::walk_chain;
use spg_opclass::OpClass;
use spg_page::Page;
use spg_tree::Descent;
use std::alloc::Global;

/// The rows of the leaves of a page that has nothing else.
fn rows_on(alloc: Global, page: &Page) -> Result<Rows, Memory>
    requires { AreAllLive page.now.tuples }
    ensures { IfOk result (λ rows. rows ≡ rows_of (leaves_on page.now.tuples)) }
{
    let mut rows = List::new(alloc);
    for index in 0..page.count() {
        rows.push(page.row_at(Offset(index + 1)))?;
    }
    Ok(rows)
}

/// The rows of the leaves of the chain at a head.
fn rows_of_chain(alloc: Global, page: &Page, head: Offset) -> Result<Rows, Memory>
    ensures { IfOk result (λ rows. rows ≡ rows_of (leaves_of (chain_members page.now.tuples head))) }
{
    let mut rows = List::new(alloc);
    for leaf in walk_chain(page, head) {
        rows.push(leaf.row)?;
    }
    Ok(rows)
}

/// The rows of the leaves of a root leaf page in their order, and that of an insert behind them.
pub(crate) fn rows_at_root<O: OpClass>(
    alloc: Global,
    page: &Page,
    descent: &Descent<O>,
) -> Result<Rows, Memory>
    requires { AreAllLive page.now.tuples }
    ensures { IfOk result (λ rows. rows ≡ rows_of (leaves_on page.now.tuples ++ carried descent.now ∷ [])) }
{
    let mut rows = rows_on(alloc, page)?;
    rows.push(descent.row())?;
    Ok(rows)
}

/// The rows of the leaves of the chain at a head in chain order, and that of an insert behind them.
pub(crate) fn rows_at_chain<O: OpClass>(
    alloc: Global,
    page: &Page,
    head: Offset,
    descent: &Descent<O>,
) -> Result<Rows, Memory>
    ensures { IfOk result (λ rows. rows ≡ rows_of (leaves_of (chain_members page.now.tuples head) ++ carried descent.now ∷ [])) }
{
    let mut rows = rows_of_chain(alloc, page, head)?;
    rows.push(descent.row())?;
    Ok(rows)
}
