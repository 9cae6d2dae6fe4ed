ghost use Rattle.std.specs.Prelude.{◌≡◌, ◌≤◌, ◌++◌, length, insert, None as Nil, IfOk, OnOk};
ghost use Rattle.spg_forest.specs.Pages.{tuple_on};
ghost use Rattle.spg_forest.specs.Sheets.{size_of, links};
ghost use Rattle.spg_page.specs.Kinds.{IsOffset, IsInner};
ghost use Rattle.spg_move.specs.Widening.{widened};

use spg_base::{Memory, Offset};
use spg_page::{InnerTuple, Node, Nodes, Page, Tuple, TupleBytes};
use std::alloc::Global;

/// Adds nodes at the end.
fn push_all(longer: &mut Nodes, nodes: &[Node]) -> Result<(), Memory>
    ensures { OnOk result (longer.new ≡ longer.old ++ nodes.now) }
{
    for node in nodes {
        longer.push(*node)?;
    }
    Ok(())
}

/// The nodes with one more at a position, which has this label and leads nowhere.
fn nodes_with(alloc: Global, nodes: &[Node], at: usize, label: i16) -> Result<Nodes, Memory>
    requires { at ≤ length nodes.now }
    ensures { IfOk result (λ longer. longer ≡ insert nodes.now at (record { label = label; link = Nil })) }
{
    let mut longer = Nodes::new(alloc);
    push_all(&mut longer, &nodes[..at])?;
    longer.push(Node { label, link: None })?;
    push_all(&mut longer, &nodes[at..])?;
    Ok(longer)
}

/// The inner tuple at an offset with one more node at a position, which has this label and leads
/// nowhere.
pub(crate) fn longer_tuple(
    alloc: Global,
    page: &Page,
    offset: Offset,
    at: u16,
    label: i16,
) -> Result<TupleBytes, Memory>
    requires offset { IsOffset page.now.tuples offset }
    requires inner { IsInner (tuple_on page.now.tuples offset) }
    requires at { at ≤ length (links (tuple_on page.now.tuples offset)) }
    requires size { size_of (widened (tuple_on page.now.tuples offset) at label) ≤ 8156 }
    ensures { IfOk result (λ longer. longer ≡ widened (tuple_on page.now.tuples offset) at label) }
{
    match page.tuple(alloc, offset)? {
        Tuple::Inner(inner) => {
            let nodes = nodes_with(alloc, inner.nodes.as_slice(), at as usize, label)?;
            TupleBytes::of(
                alloc,
                &Tuple::Inner(InnerTuple {
                    all_same: inner.all_same,
                    prefix: inner.prefix,
                    nodes,
                }),
            )
        }
        _ => unreachable!(),
    }
}
