use crate::tuples::tuple_with;
use spg_base::{Bytes, Memory, Point, PointCond};
use spg_kd::{Kd, KdRecon};
use spg_opclass::{Choice, InnerView, OpClass, Picked};
use spg_points::{coordinate, encode, encode_coordinate};
use std::alloc::Global;
use std::test::Fail;

const MIN: i32 = i32::MIN;

const MAX: i32 = i32::MAX;

/// Four points, divided at an odd level or an even one, with the coordinate and the nodes.
const FOURS: [(bool, [(i32, i32); 4], i32, u64); 5] = [
    (false, [(1, 5), (2, 5), (3, 5), (9, 4)], 5, 1221),
    (true, [(1, 5), (2, 5), (3, 5), (9, 4)], 3, 1122),
    (true, [(7, 0), (7, 1), (7, 2), (7, 3)], 7, 1122),
    (false, [(0, MAX), (0, MIN), (0, MAX), (0, MIN)], MAX, 2121),
    (true, [(-5, 0), (-1, 0), (-3, 0), (-3, 0)], -3, 1212),
];

/// Each condition, with the nodes at an even level and at an odd one.
const CONDS: [(PointCond, u64, u64); 9] = [
    (PointCond::Eq(Point { x: 2, y: 5 }), 12, 1),
    (PointCond::Eq(Point { x: 5, y: 6 }), 2, 12),
    (PointCond::Below(5), 1, 12),
    (PointCond::Above(5), 2, 12),
    (PointCond::Left(5), 12, 1),
    (PointCond::Left(6), 12, 12),
    (PointCond::Left(MIN), 0, 0),
    (PointCond::Right(4), 12, 12),
    (PointCond::Right(MAX), 0, 0),
];

/// The nodes, each plus one, as the digits of a number.
fn digits(nodes: &[u16]) -> u64 {
    let mut number: u64 = 0;
    for node in nodes {
        number = number.wrapping_mul(10).wrapping_add(*node as u64 + 1);
    }
    number
}

fn rests_of(alloc: Global, points: &[(i32, i32)]) -> Result<Vec<Bytes>, Memory> {
    let mut rests = Vec::new(alloc);
    for (x, y) in points {
        rests.push(encode(alloc, Point { x: *x, y: *y })?)?;
    }
    Ok(rests)
}

fn picked<O: OpClass>(
    class: &O,
    alloc: Global,
    recon: &O::Recon,
    rests: &[Bytes],
) -> Result<Option<Picked>, Memory> {
    if rests.is_empty() {
        return Ok(None);
    }
    Ok(Some(class.picksplit(alloc, recon, rests)?))
}

/// Whether the points are divided at that coordinate into those nodes.
fn divides(
    alloc: Global,
    odd: bool,
    points: &[(i32, i32)],
    cut: i32,
    nodes: u64,
) -> Result<bool, Memory> {
    let rests = rests_of(alloc, points)?;
    match picked(&Kd, alloc, &KdRecon { odd }, rests.as_slice())? {
        Some(picked) => {
            let prefix = picked.prefix.as_slice();
            Ok(coordinate(prefix, 0) == cut && digits(picked.node_of.as_slice()) == nodes)
        }
        None => Ok(false),
    }
}

fn tuple_at(alloc: Global, all_same: bool, cut: i32) -> Result<InnerView, Memory> {
    let nodes = if all_same { 8 } else { 2 };
    tuple_with(alloc, all_same, encode_coordinate(alloc, cut)?, nodes)
}

/// The node that is chosen for a point.
fn chosen(alloc: Global, recon: KdRecon, tuple: &InnerView, p: Point) -> Result<u16, Memory> {
    let rest = encode(alloc, p)?;
    match Kd.choose(alloc, &recon, tuple, rest.as_slice())? {
        Choice::Match { node, .. } => Ok(node),
        _ => Ok(99),
    }
}

/// The nodes that are visited for a condition, as digits.
fn kept(alloc: Global, recon: KdRecon, tuple: &InnerView, cond: PointCond) -> Result<u64, Memory> {
    let kept = Kd.inner_consistent(alloc, &recon, tuple, &[cond])?;
    Ok(digits(kept.as_slice()))
}

fn admits(recon: KdRecon, tuple: &InnerView, node: u16, p: Point) -> bool {
    (node as usize) < tuple.labels.len() && Kd.admits(&recon, tuple, node, &p)
}

/// Whether each four are divided as they should be.
fn divides_fours(alloc: Global) -> Result<bool, Memory> {
    let mut all = true;
    for (odd, points, cut, nodes) in &FOURS {
        all = all && divides(alloc, *odd, points.as_slice(), *cut, *nodes)?;
    }
    Ok(all)
}

#[test]
fn divides_at_the_middle_of_the_order(rt: HostRuntime) -> Result<(), Fail> {
    let alloc = rt.alloc();
    assert!(rt; divides_fours(alloc)?);
    assert!(rt; divides(alloc, false, &[(3, MIN)], MIN, 2)?);
    assert!(rt; divides(alloc, true, &[(2, 0), (1, 0), (2, 0)], 2, 212)?);
    Ok(())
}

/// Whether each condition has its nodes, at both levels.
fn keeps_its_nodes(alloc: Global, tuple: &InnerView) -> Result<bool, Memory> {
    let mut all = true;
    for (cond, at_even, at_odd) in &CONDS {
        all = all && kept(alloc, KdRecon { odd: false }, tuple, *cond)? == *at_even;
        all = all && kept(alloc, KdRecon { odd: true }, tuple, *cond)? == *at_odd;
    }
    Ok(all)
}

/// Whether the point goes to that node at the root, and whether it may stand below the other is as
/// given.
fn goes(
    alloc: Global,
    tuple: &InnerView,
    p: Point,
    node: u16,
    may_stand: bool,
) -> Result<bool, Memory> {
    let even = Kd.start(alloc)?;
    Ok(
        !even.odd
            && chosen(alloc, even, tuple, p)? == node
            && admits(even, tuple, 1 - node.min(1), p) == may_stand,
    )
}

/// Whether all eight nodes of an all-the-same tuple are visited, and the first is chosen.
fn keeps_the_same(alloc: Global) -> Result<bool, Memory> {
    let even = KdRecon { odd: false };
    let same = tuple_at(alloc, true, 5)?;
    Ok(
        Kd.nodes_ok(&same)
            && chosen(alloc, even, &same, Point { x: 4, y: 5 })? == 0
            && kept(alloc, even, &same, PointCond::Below(5))? == 12345678,
    )
}

/// Whether the tuple cuts at 5 by turns.
fn looks_by_turns(alloc: Global) -> Result<bool, Memory> {
    let tuple = tuple_at(alloc, false, 5)?;
    Ok(
        keeps_its_nodes(alloc, &tuple)?
            && goes(alloc, &tuple, Point { x: 5, y: 4 }, 0, false)?
            && goes(alloc, &tuple, Point { x: 4, y: 5 }, 1, true)?,
    )
}

#[test]
fn looks_at_y_and_x_by_turns(rt: HostRuntime) -> Result<(), Fail> {
    assert!(rt; looks_by_turns(rt.alloc())?);
    assert!(rt; keeps_the_same(rt.alloc())?);
    Ok(())
}
