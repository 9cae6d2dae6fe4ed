ghost use Rattle.std.specs.Prelude.{◌≡◌, true, false, IfOk, OnErr};
ghost use Rattle.std.specs.BTreeSet.{contains};
ghost use Rattle.spg_base.specs.Row.{row_cmp};
ghost use Rattle.spg_cover.specs.Swept.{targets_on, found_on};
ghost use Rattle.spg_chain.specs.Chained.{IsLeafPage, IsSweptOf};
ghost use Rattle.spg_chain.specs.Told.{IsWithoutTargets};

use crate::sweep_chains::sweep_chains;
use crate::sweep_root::remove_targets;
use crate::targets::{places_on, rows_on};
use spg_base::{List, Memory, Place, Row, RowSet, Stamp};
use spg_page::Page;
use std::alloc::Global;

/// What a sweep took away from a page, and what redirects it met there.
#[derive(Debug, Drop)]
pub struct Swept {
    /// The rows of the targets, in the order of the offsets that they had.
    pub rows: List<Row>,
    /// Where the redirects lead whose stamp is not below the vacuum's, in the order of their offsets.
    pub found: List<Place>,
}

/// Sweeps the chains of a leaf page that is no root's. After a refusal the page is as before.
fn sweep_leaf_page(alloc: Global, page: &mut Page, targets: &RowSet) -> Result<(), Memory>
    requires { IsLeafPage page.old.tuples }
    ensures ok { IfOk result (λ done. IsSweptOf (contains row_cmp targets.now.rows) page.old page.new) }
    ensures err { OnErr result (page.new ≡ page.old) }
{
    let mut work = Page::new(alloc, page.kind(), page.is_nulls())?;
    work.copy_from(page);
    sweep_chains(alloc, &mut work, targets)?;
    page.copy_from(&work);
    Ok(())
}

/// Sweeps the targets of a leaf page. On a page that is no root's, a target that is not the head of its
/// chain becomes a placeholder; where the head is a target, the first leaf tuple that stays moves to
/// the head's offset and leaves a placeholder; where none stays, the head becomes a dead tuple. The
/// others keep their order. On a root's page the targets are removed and later tuples move down.
/// `since` is the stamp of the vacuum's opening. After a refusal the page is as before.
pub fn sweep_page(
    alloc: Global,
    page: &mut Page,
    root: bool,
    targets: &RowSet,
    since: Stamp,
) -> Result<Swept, Memory>
    requires { root ≡ false → IsLeafPage page.old.tuples }
    ensures rows { IfOk result (λ swept. swept.rows ≡ targets_on (contains row_cmp targets.now.rows) page.old.tuples) }
    ensures found { IfOk result (λ swept. swept.found ≡ found_on since page.old.tuples) }
    ensures swept { root ≡ false → IfOk result (λ swept. IsSweptOf (contains row_cmp targets.now.rows) page.old page.new) }
    ensures removed { root ≡ true → IfOk result (λ swept. IsWithoutTargets (contains row_cmp targets.now.rows) page.old page.new) }
    ensures err { OnErr result (page.new ≡ page.old) }
{
    let rows = rows_on(alloc, page, targets)?;
    let found = places_on(alloc, page, since)?;
    if root {
        remove_targets(page, targets);
    } else if !rows.is_empty() {
        sweep_leaf_page(alloc, page, targets)?;
    }
    Ok(Swept { rows, found })
}
