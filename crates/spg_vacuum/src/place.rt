ghost use Rattle.std.specs.Prelude.{◌≡◌, ◌<◌, ◌≤◌, length, IfOk, OnOk, OnErr};
ghost use Rattle.std.specs.BTreeSet.{contains};
ghost use Rattle.spg_base.specs.Row.{row_cmp};
ghost use Rattle.spg_forest.specs.Pages.{tuple_on};
ghost use Rattle.spg_forest.specs.Sheets.{links};
ghost use Rattle.spg_forest.specs.Shape.{Shape};
ghost use Rattle.spg_page.specs.Kinds.{IsOffset, IsInner};
ghost use Rattle.spg_cover.specs.Vacuum.{leads_to, places_of};
ghost use Rattle.spg_tree.specs.Table.{sheets_of, sheet_at, tuples_at};
ghost use Rattle.spg_vacuum.specs.Listing.{with_listed};
ghost use Rattle.spg_vacuum.specs.Handled.{HandlesPlace, found_from};

use crate::handle::handle_block;
use crate::pending::Pending;
use spg_base::{List, Memory, Offset, Place, Row, RowSet, Stamp};
use spg_opclass::OpClass;
use spg_page::{Page, PageKind, TupleKind};
use spg_tree::{PageTable, Touched};
use std::alloc::Global;

/// Where the nodes of the inner tuple at an offset lead, in their order.
fn node_places(alloc: Global, page: &Page, offset: Offset) -> Result<List<Place>, Memory>
    requires at { IsOffset page.now.tuples offset }
    requires inner { IsInner (tuple_on page.now.tuples offset) }
    ensures { IfOk result (λ places. places ≡ places_of (links (tuple_on page.now.tuples offset))) }
{
    let mut places = List::new(alloc);
    for node in 0..page.node_count_at(offset) {
        if let Some(place) = page.link_at(offset, node) {
            places.push(place)?;
        }
    }
    Ok(places)
}

/// Where the tuple at an offset leads: the nodes of an inner tuple, or a redirect. Another tuple leads
/// nowhere.
fn places_below(alloc: Global, page: &Page, offset: Offset) -> Result<List<Place>, Memory>
    requires { IsOffset page.now.tuples offset }
    ensures { IfOk result (λ places. places ≡ leads_to (tuple_on page.now.tuples offset)) }
{
    if page.kind_at(offset) == TupleKind::Inner {
        return node_places(alloc, page, offset);
    }
    let mut places = List::new(alloc);
    if page.kind_at(offset) == TupleKind::Redirect {
        places.push(page.target_at(offset))?;
    }
    Ok(places)
}

/// Handles a place: on a leaf page its whole page, as that of a block; on an inner page it lists what
/// the tuple there leads to. After a refusal table and list are as before.
pub(crate) fn handle_place<O: OpClass>(
    alloc: Global,
    table: &mut PageTable,
    pending: &mut Pending,
    place: Place,
    targets: &RowSet,
    since: Stamp,
    horizon: Stamp,
) -> Result<List<Row>, Memory>
    requires shape { Shape O.meaning (sheets_of table.old) }
    requires block { (0 < place.block) × (place.block < length table.old.pages) }
    requires there { IsOffset (tuples_at table.old place.block) place.offset }
    ensures ok { IfOk result (λ rows. HandlesPlace (sheet_at table.old place.block).inner table.old table.new place (contains row_cmp targets.now.rows) horizon rows) }
    ensures list { OnOk result (pending.new ≡ with_listed pending.old (found_from (sheet_at table.old place.block).inner since table.old place)) }
    ensures err { OnErr result (table.new ≡ table.old) }
    ensures err_list { OnErr result (pending.new ≡ pending.old) }
{
    let page = table.page(place.block);
    if page.kind() == PageKind::Leaf {
        return handle_block::<O>(alloc, table, pending, place.block, targets, since, horizon);
    }
    let found = places_below(alloc, page, place.offset)?;
    pending.list_all(found.as_slice())?;
    table.set_touched(Touched::new());
    Ok(List::new(alloc))
}
