// Copies that are made of tuples and rests, where the class takes them.
ghost use Rattle.std.specs.Prelude.{◌≡◌, ◌<◌, true, length, IsTrue};
ghost use Rattle.spg_opclass.specs.Copies.{AreKeys};

use spg_base::{Bytes, Labels, List, Memory, Place, Point, PointCond, Rows};
use spg_opclass::{Bunch, InnerCopy, InnerView, LeavesCopy, OpClass, Spotted};
use spg_points::{encode, zero_labels};
use std::alloc::Global;

/// A tuple at a centroid, with so many nodes.
pub fn tuple_at(
    alloc: Global,
    all_same: bool,
    (x, y): (i32, i32),
    nodes: u16,
) -> Result<InnerView, Memory> {
    Ok(InnerView {
        all_same,
        prefix: encode(alloc, Point { x, y })?,
        labels: zero_labels(alloc, nodes)?,
    })
}

/// The rests of points.
pub fn rests_of(alloc: Global, points: &[(i32, i32)]) -> Result<List<Bytes>, Memory> {
    let mut rests = List::new(alloc);
    for (x, y) in points {
        rests.push(encode(alloc, Point { x: *x, y: *y })?)?;
    }
    Ok(rests)
}

/// A copy of a tuple and a rest, where the class has such.
pub fn spotted<O: OpClass>(
    class: &O,
    recon: O::Recon,
    tuple: InnerView,
    rest: Bytes,
) -> Option<Spotted<O>> {
    let there = class.prefix_ok(tuple.prefix.as_slice()) && class.nodes_ok(&tuple);
    if there && class.key_ok(&recon, rest.as_slice()) {
        Some(Spotted::new(recon, tuple, rest))
    } else {
        None
    }
}

/// Whether each rest gives a key.
fn are_keys<O: OpClass>(class: &O, recon: &O::Recon, rests: &[Bytes]) -> bool
    ensures { IsTrue result → AreKeys O.meaning recon.now rests.now }
{
    for i in 0..rests.len() {
        if !class.key_ok(recon, rests[i].as_slice()) {
            return false;
        }
    }
    true
}

/// A copy of rests, where each gives a key.
pub fn bunch_of<O: OpClass>(class: &O, recon: O::Recon, rests: List<Bytes>) -> Option<Bunch<O>> {
    if are_keys(class, &recon, rests.as_slice()) {
        Some(Bunch::new(recon, rests))
    } else {
        None
    }
}

/// A copy of a tuple that is not all-the-same, with its downlinks, where the class has such.
pub fn inner_of<O: OpClass>(
    class: &O,
    recon: O::Recon,
    prefix: Bytes,
    labels: Labels,
    links: List<Option<Place>>,
) -> Option<InnerCopy<O>>
    requires { O.meaning.is_recon recon ≡ true }
{
    let tuple = InnerView {
        all_same: false,
        prefix,
        labels,
    };
    let there = class.prefix_ok(tuple.prefix.as_slice()) && class.nodes_ok(&tuple);
    if there && !links.is_empty() && links.len() == tuple.labels.len() {
        Some(InnerCopy::new(recon, tuple, links))
    } else {
        None
    }
}

/// A copy of leaves, where each rest gives a key and there is one for each row.
pub fn leaves_of<O: OpClass>(
    class: &O,
    recon: O::Recon,
    rows: Rows,
    rests: List<Bytes>,
) -> Option<LeavesCopy<O>> {
    if rests.len() == rows.len() && are_keys(class, &recon, rests.as_slice()) {
        Some(LeavesCopy::new(recon, rows, rests))
    } else {
        None
    }
}

/// One condition.
pub fn conds_of(alloc: Global, cond: PointCond) -> Result<List<PointCond>, Memory> {
    let mut conds = List::new(alloc);
    conds.push(cond)?;
    Ok(conds)
}
