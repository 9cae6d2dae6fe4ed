ghost use Rattle.std.specs.Prelude.{◌≡◌, ◌<◌, ◌≤◌, length, IfOk};
ghost use Rattle.spg_opclass.specs.Meaning.{upper, lower};
ghost use Rattle.spg_opclass.specs.Laws.{inner_size};
ghost use Rattle.spg_forest.specs.Tuples.{Inner};
ghost use Rattle.spg_forest.specs.Pages.{tuple_on};
ghost use Rattle.spg_forest.specs.Sheets.{links};
ghost use Rattle.spg_page.specs.Kinds.{IsOffset, IsInner};
ghost use Rattle.spg_page.specs.Reads.{frame_in};
ghost use Rattle.spg_descend.specs.BareNodes.{bare, nodes_of};

use spg_base::{Bytes, Labels, Memory, Offset};
use spg_descend::bare_nodes;
use spg_page::{InnerTuple, Page, Tuple, TupleBytes};
use std::alloc::Global;

/// The upper tuple of a split, with downlinks that lead nowhere.
pub(crate) fn upper_tuple(
    alloc: Global,
    prefix: &Bytes,
    labels: &Labels,
) -> Result<TupleBytes, Memory>
    requires some { 0 < length labels.now }
    requires small { inner_size (upper prefix.now labels.now) ≤ 8156 }
    ensures { IfOk result (λ bytes. bytes ≡ Inner (upper prefix.now labels.now) (bare (length labels.now))) }
{
    let all_same = false;
    let prefix = Bytes::copy(alloc, prefix.as_slice())?;
    let nodes = bare_nodes(alloc, labels.as_slice())?;
    TupleBytes::of(
        alloc,
        &Tuple::Inner(InnerTuple {
            all_same,
            prefix,
            nodes,
        }),
    )
}

/// The lower tuple of a split: the inner tuple at an offset, with another prefix.
pub(crate) fn lower_tuple(
    alloc: Global,
    page: &Page,
    offset: Offset,
    prefix: &Bytes,
) -> Result<TupleBytes, Memory>
    requires within { IsOffset page.now.tuples offset }
    requires inner { IsInner (tuple_on page.now.tuples offset) }
    requires small { inner_size (lower (frame_in (tuple_on page.now.tuples offset)) prefix.now) ≤ 8156 }
    ensures { IfOk result (λ bytes. bytes ≡ Inner (lower (frame_in (tuple_on page.now.tuples offset)) prefix.now) (links (tuple_on page.now.tuples offset))) }
{
    match page.tuple(alloc, offset)? {
        Tuple::Inner(inner) => {
            let InnerTuple {
                all_same,
                nodes,
                ..
            } = inner;
            let prefix = Bytes::copy(alloc, prefix.as_slice())?;
            TupleBytes::of(
                alloc,
                &Tuple::Inner(InnerTuple {
                    all_same,
                    prefix,
                    nodes,
                }),
            )
        }
        _ => unreachable!(),
    }
}
