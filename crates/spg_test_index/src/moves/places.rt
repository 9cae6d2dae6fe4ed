//! What stands at places of an index.

use spg_base::{Block, Memory, Offset, Row};
use spg_core::State;
use spg_page::{Node, Page, Tuple};
use spg_quad::Quad;
use std::alloc::Global;

/// A block and an offset there.
pub(crate) type At = (u32, u16);

/// What stands at a place: of a leaf its row and the next offset, of a redirect where it leads and its
/// stamp, of an inner tuple of four nodes where these lead. 0, 0 stands for no place.
#[derive(Clone, Copy, PartialEq, Eq)]
pub(crate) enum Stands {
    Nothing,
    Inner([At; 4]),
    Leaf { row: At, next: u16 },
    Dead,
    Redirect { to: At, stamp: u64 },
    Placeholder,
}

/// Where a node leads.
fn link_of(node: Option<&Node>) -> At {
    match node {
        Some(Node { link: Some(to), .. }) => (to.block.0, to.offset.0),
        _ => (0, 0),
    }
}

/// Where four nodes lead.
fn links_of(nodes: &[Node]) -> [At; 4] {
    let mut links = [(0, 0); 4];
    for index in 0..4usize {
        links[index] = link_of(nodes.get(index));
    }
    links
}

fn row_of(row: Row) -> At {
    (row.block(), row.offset())
}

fn next_of(next: Option<Offset>) -> u16 {
    match next {
        Some(offset) => offset.0,
        None => 0,
    }
}

/// What a tuple is.
fn told(tuple: &Tuple) -> Stands {
    match tuple {
        Tuple::Inner(inner) => Stands::Inner(links_of(inner.nodes.as_slice())),
        Tuple::Leaf(leaf) => Stands::Leaf {
            row: row_of(leaf.row),
            next: next_of(leaf.next),
        },
        Tuple::Dead => Stands::Dead,
        Tuple::Redirect { to, stamp } => Stands::Redirect {
            to: (to.block.0, to.offset.0),
            stamp: stamp.moment(),
        },
        Tuple::Placeholder => Stands::Placeholder,
    }
}

/// What stands at an offset of a page.
fn on_page(alloc: Global, page: &Page, offset: u16) -> Result<Stands, Memory> {
    if offset == 0 || offset > page.count() {
        return Ok(Stands::Nothing);
    }
    let tuple = page.tuple(alloc, Offset(offset))?;
    Ok(told(&tuple))
}

/// What stands at a place.
pub(crate) fn stands_at(alloc: Global, state: &State<Quad>, at: At) -> Result<Stands, Memory> {
    let (block, offset) = at;
    let table = state.pages();
    if block >= table.page_count() {
        return Ok(Stands::Nothing);
    }
    on_page(alloc, table.page(Block(block)), offset)
}
