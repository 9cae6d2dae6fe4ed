ghost use Rattle.std.specs.Prelude.{◌≡◌, ◌+◌, IfOk};
ghost use Rattle.std.specs.BTreeSet.{contains};
ghost use Rattle.spg_base.specs.Row.{row_cmp};
ghost use Rattle.spg_forest.specs.Pages.{tuple_on};
ghost use Rattle.spg_page.specs.Kinds.{IsOffset};
ghost use Rattle.spg_cover.specs.Swept.{targets_on, found_on};
ghost use Rattle.spg_chain.specs.Told.{is_target, is_late};

use spg_base::{List, Memory, Offset, Place, Row, RowSet, Stamp};
use spg_page::{Page, TupleKind};
use std::alloc::Global;

/// Whether a leaf tuple of a target stands at an offset.
pub(crate) fn is_target_at(page: &Page, offset: Offset, targets: &RowSet) -> bool
    requires { IsOffset page.now.tuples offset }
    ensures { result ≡ is_target (contains row_cmp targets.now.rows) (tuple_on page.now.tuples offset) }
{
    page.kind_at(offset) == TupleKind::Leaf && targets.has(page.row_at(offset))
}

/// The rows of the targets on the page, in the order of their offsets.
pub(crate) fn rows_on(alloc: Global, page: &Page, targets: &RowSet) -> Result<List<Row>, Memory>
    ensures { IfOk result (λ rows. rows ≡ targets_on (contains row_cmp targets.now.rows) page.now.tuples) }
{
    let mut rows = List::new(alloc);
    for index in 0..page.count() {
        let offset = Offset(index + 1);
        if is_target_at(page, offset, targets) {
            rows.push(page.row_at(offset))?;
        }
    }
    Ok(rows)
}

/// Whether a redirect of the stamp or a later one stands at an offset.
fn is_late_at(page: &Page, offset: Offset, since: Stamp) -> bool
    requires { IsOffset page.now.tuples offset }
    ensures { result ≡ is_late since (tuple_on page.now.tuples offset) }
{
    page.kind_at(offset) == TupleKind::Redirect && since.moment() <= page.stamp_at(offset).moment()
}

/// Where the redirects of the stamp or a later one lead, in the order of their offsets.
pub(crate) fn places_on(alloc: Global, page: &Page, since: Stamp) -> Result<List<Place>, Memory>
    ensures { IfOk result (λ places. places ≡ found_on since page.now.tuples) }
{
    let mut places = List::new(alloc);
    for index in 0..page.count() {
        let offset = Offset(index + 1);
        if is_late_at(page, offset, since) {
            places.push(page.target_at(offset))?;
        }
    }
    Ok(places)
}
