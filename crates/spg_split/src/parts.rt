ghost use Rattle.std.specs.Prelude.{◌≡◌, ◌<◌, ◌≤◌, ◌+◌, ◌*◌, ℕ, List as Items, length, replicate, slice_get, Some as Just, None as Nil, IfOk};
ghost use Rattle.spg_opclass.specs.Laws.{leaf_size, inner_size};
ghost use Rattle.spg_forest.specs.Tuples.{Inner, Live};
ghost use Rattle.spg_forest.specs.Pages.{all_live};
ghost use Rattle.spg_forest.specs.Sheets.{weight};
ghost use Rattle.spg_split.specs.Placing.{leaves_with};
ghost use Rattle.spg_split.specs.Parts.{ArePartsOf};
ghost use Rattle.spg_descend.specs.BareNodes.{bare, nodes_of};

use crate::division::Division;
use spg_base::{Bytes, List, Memory, Place, Row};
use spg_chain::leaf_tuple;
use spg_descend::bare_nodes;
use spg_opclass::InnerView;
use spg_page::{InnerTuple, Tuple, TupleBytes};
use std::alloc::Global;

/// The tuples of a division: the leaf tuples and the node of each, the inner tuple with downlinks
/// that lead nowhere, and these downlinks.
#[derive(Drop)]
pub(crate) struct Parts {
    pub(crate) leaves: List<TupleBytes>,
    pub(crate) node_of: List<u16>,
    pub(crate) inner: TupleBytes,
    pub(crate) links: List<Option<Place>>,
}

/// The leaf tuples of rows and rests.
fn leaf_tuples(alloc: Global, rows: &[Row], rests: &[Bytes]) -> Result<List<TupleBytes>, Memory>
    requires each { length rests.now ≡ length rows.now }
    requires small { (i : ℕ) (q : Items ℕ) → slice_get rests.now i ≡ Just q → leaf_size q ≤ 8156 }
    ensures { IfOk result (λ leaves. leaves ≡ all_live (leaves_with rows.now rests.now)) }
{
    let mut leaves = List::new(alloc);
    for index in 0..rows.len() {
        leaves.push(leaf_tuple(alloc, rows[index], rests[index].as_slice())?)?;
    }
    Ok(leaves)
}

/// The inner tuple, with downlinks that lead nowhere.
pub fn inner_tuple(alloc: Global, frame: InnerView) -> Result<TupleBytes, Memory>
    requires some { 0 < length frame.labels }
    requires small { inner_size frame ≤ 8156 }
    ensures { IfOk result (λ inner. inner ≡ Inner frame (bare (length frame.labels))) }
{
    let nodes = bare_nodes(alloc, frame.labels.as_slice())?;
    TupleBytes::of(
        alloc,
        &Tuple::Inner(InnerTuple {
            all_same: frame.all_same,
            prefix: frame.prefix,
            nodes,
        }),
    )
}

/// So many downlinks that lead nowhere.
fn bare_links(alloc: Global, count: usize) -> Result<List<Option<Place>>, Memory>
    ensures { IfOk result (λ links. links ≡ bare count) }
{
    let mut links = List::new(alloc);
    for node in 0..count {
        links.push(None)?;
    }
    Ok(links)
}

impl Parts {
    /// The tuples of a division of these rows.
    pub(crate) fn of(alloc: Global, rows: &[Row], division: Division) -> Result<Parts, Memory>
        requires each { length division.rests ≡ length rows.now }
        requires small { (i : ℕ) (q : Items ℕ) → slice_get division.rests i ≡ Just q → leaf_size q ≤ 8156 }
        requires some { 0 < length division.frame.labels }
        requires frame { inner_size division.frame ≤ 8156 }
        ensures { IfOk result (λ parts. ArePartsOf rows.now division parts) }
    {
        let leaves = leaf_tuples(alloc, rows, division.rests.as_slice())?;
        let links = bare_links(alloc, division.frame.labels.len())?;
        Ok(Parts {
            leaves,
            node_of: division.node_of,
            inner: inner_tuple(alloc, division.frame)?,
            links,
        })
    }
}
