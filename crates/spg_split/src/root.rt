ghost use Rattle.std.specs.Prelude.{◌≡◌, ◌<◌, ◌≤◌, ◌+◌, ◌∷◌, ℕ, List as Items, [], length, slice_get, Some as Just, IfSome};
ghost use Rattle.spg_forest.specs.View.{Place as PlaceAt};
ghost use Rattle.spg_forest.specs.Tuples.{Inner};
ghost use Rattle.spg_forest.specs.Sheets.{with_tuples};
ghost use Rattle.spg_forest.specs.Pages.{tuple_on, with_tuple};
ghost use Rattle.spg_page.specs.Kinds.{IsOffset};
ghost use Rattle.spg_page.specs.Reads.{frame_in};
ghost use Rattle.spg_split.specs.Dividing.{AreAllLive};
ghost use Rattle.spg_descend.specs.BareNodes.{bare};
ghost use Rattle.spg_split.specs.Placing.{inner_root};

use spg_base::{Offset, Place};
use spg_page::{Page, PageKind, TupleBytes};

/// Takes all leaf tuples of a page away that has nothing else.
fn clear_leaves(page: &mut Page)
    requires { AreAllLive page.old.tuples }
    ensures { page.new ≡ with_tuples page.old [] }
{
    let mut left = page.count();
    while left > 0 {
        page.remove(Offset(left));
        left -= 1;
    }
}

/// Sets the downlinks of an inner tuple that leads nowhere yet.
pub(crate) fn set_links(page: &mut Page, at: Offset, links: &[Option<Place>])
    requires offset { IsOffset page.old.tuples at }
    requires inner { tuple_on page.old.tuples at ≡ Inner (frame_in (tuple_on page.old.tuples at)) (bare (length links.now)) }
    requires to { (i : ℕ) (y : PlaceAt) → slice_get links.now i ≡ Just (Just y) → (0 < y.block) × (0 < y.offset) }
    requires count { length links.now < 65536 }
    ensures { page.new ≡ with_tuples page.old (with_tuple page.old.tuples at (Inner (frame_in (tuple_on page.old.tuples at)) links.now)) }
{
    for node in 0..links.len() {
        page.set_link(at, node as u16, links[node]);
    }
}

/// Makes a root leaf page an inner page, whose tuple has these downlinks.
pub(crate) fn make_inner_root(page: &mut Page, inner: &TupleBytes, links: &[Option<Place>])
    requires leaves { AreAllLive page.old.tuples }
    requires inner { inner.now ≡ Inner (frame_in inner.now) (bare (length links.now)) }
    requires to { (i : ℕ) (y : PlaceAt) → slice_get links.now i ≡ Just (Just y) → (0 < y.block) × (0 < y.offset) }
    requires count { length links.now < 65536 }
    ensures { page.new ≡ inner_root page.old.nulls inner.now links.now }
{
    let nulls = page.is_nulls();
    let _size = inner.size();
    clear_leaves(page);
    page.reset(PageKind::Inner, nulls);
    let _ = page.add(inner);
    set_links(page, Offset(1), links);
}
