ghost use Rattle.std.specs.Prelude.{◌≡◌, ◌<◌, ◌≤◌, IfOk};
ghost use Rattle.std.specs.BTreeSet.{contains};
ghost use Rattle.spg_base.specs.Row.{row_cmp};
ghost use Rattle.spg_forest.specs.Pages.{tuple_on, with_tuple};
ghost use Rattle.spg_forest.specs.Tuples.{Dead, Placeholder};
ghost use Rattle.spg_forest.specs.Sheets.{with_tuples};
ghost use Rattle.spg_page.specs.Kinds.{IsOffset, IsLive};
ghost use Rattle.spg_chain.specs.Sweeps.{IsChainList, IsRenewed};

use crate::take::put_placeholder;
use spg_base::{Bytes, Memory, Offset, RowSet};
use spg_page::{LeafTuple, Page, Tuple, TupleBytes};
use std::alloc::Global;

/// Moves a leaf tuple into the place of a placeholder, and leaves a placeholder. After a refusal the page
/// is as before.
fn move_leaf(alloc: Global, page: &mut Page, from: Offset, to: Offset) -> Result<(), Memory>
    requires from { IsOffset page.old.tuples from }
    requires live { IsLive (tuple_on page.old.tuples from) }
    requires to { IsOffset page.old.tuples to }
    requires empty { tuple_on page.old.tuples to ≡ Placeholder }
    ensures { IfOk result (λ done. page.new ≡ with_tuples page.old (with_tuple (with_tuple page.old.tuples from Placeholder) to (tuple_on page.old.tuples from))) }
{
    // What the prover reads: the bytes on the page and of the tuple.
    let _room = page.free();
    let _size = page.size_at(from);
    let row = page.row_at(from);
    let next = page.next_at(from);
    let rest = Bytes::copy(alloc, page.rest_at(from))?;
    let bytes = TupleBytes::of(alloc, &Tuple::Leaf(LeafTuple { row, next, rest }))?;
    put_placeholder(page, from);
    page.replace(to, &bytes);
    Ok(())
}

/// Puts a dead tuple in the place of the tuple at an offset.
fn put_dead(page: &mut Page, offset: Offset)
    requires { IsOffset page.old.tuples offset }
    ensures { page.new ≡ with_tuples page.old (with_tuple page.old.tuples offset Dead) }
{
    let _size = page.size_at(offset);
    page.replace(offset, &TupleBytes::dead());
}

/// Writes a chain anew without the targets: the first leaf that stays stands at the head then. After a
/// refusal some of it may be written.
pub(crate) fn rewrite(
    alloc: Global,
    page: &mut Page,
    offsets: &[Offset],
    targets: &RowSet,
) -> Result<(), Memory>
    requires { IsChainList page.old.tuples offsets.now }
    ensures { IfOk result (λ done. IsRenewed (contains row_cmp targets.now.rows) page.old offsets.now page.new) }
{
    let mut first: Option<Offset> = None;
    let mut left = offsets.len();
    while left > 0 {
        left -= 1;
        let offset = offsets[left];
        if targets.has(page.row_at(offset)) {
            put_placeholder(page, offset);
        } else {
            page.set_next(offset, first);
            first = Some(offset);
        }
    }
    let head = offsets[0];
    let Some(first) = first else {
        put_dead(page, head);
        return Ok(());
    };
    if first.0 == head.0 {
        return Ok(());
    }
    move_leaf(alloc, page, first, head)
}
