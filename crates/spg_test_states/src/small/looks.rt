//! What is seen of an index at its places.
ghost use Rattle.std.specs.Prelude.{◌≡◌, ◌<◌, ◌≤◌, true, length, IfSome, IsTrue};
ghost use Rattle.spg_forest.specs.Pages.{tuple_on};
ghost use Rattle.spg_seats.specs.Slots.{stage_holds};
ghost use Rattle.spg_core.specs.Seen.{stage_at};
ghost use Rattle.spg_test_states.specs.States.{Redirects, IsRedirectSince};

use spg_base::{Block, Offset, SeatNo, Stamp};
use spg_core::Bare;
use spg_opclass::OpClass;
use spg_page::{Page, TupleKind};

/// Whether the seat has latched a block. Then its open insert stands there, or the tuple above it does.
pub(crate) fn has_latched<O: OpClass>(bare: &Bare<O>, seat: SeatNo, block: Block) -> bool
    ensures { IsTrue result → stage_holds (stage_at bare.now seat) block ≡ true }
{
    let table = bare.pages();
    block.0 < table.page_count() && table.latch_of(block) == Some(seat)
}

/// Whether a redirect of this stamp or later stands at an offset of a page.
fn redirects_at(page: &Page, offset: Offset, since: Stamp) -> bool
    requires from { 0 < offset }
    requires to { offset ≤ length page.now.tuples }
    ensures { IsTrue result → IsRedirectSince (tuple_on page.now.tuples offset) since }
{
    if page.kind_at(offset) != TupleKind::Redirect {
        return false;
    }
    page.stamp_at(offset).moment() >= since.moment()
}

/// Where the first redirect of this stamp or later stands on a page.
fn first_redirect(page: &Page, since: Stamp) -> Option<u16>
    ensures { IfSome result (λ offset. IsRedirectSince (tuple_on page.now.tuples offset) since) }
{
    for offset in 1..=page.count() {
        if redirects_at(page, Offset(offset), since) {
            return Some(offset);
        }
    }
    None
}

/// Whether a redirect of this stamp or later stands on a block.
pub(crate) fn redirects<O: OpClass>(bare: &Bare<O>, block: Block, since: Stamp) -> bool
    ensures { IsTrue result → Redirects bare.now.table since }
{
    let table = bare.pages();
    if block.0 >= table.page_count() {
        return false;
    }
    match first_redirect(table.page(block), since) {
        Some(_) => true,
        None => false,
    }
}
