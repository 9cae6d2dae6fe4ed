use crate::tuples::tuple_with;
use spg_base::{Bytes, Memory, Point, PointCond};
use spg_opclass::{Choice, InnerView, OpClass, Picked};
use spg_points::{decode, encode};
use spg_quad::{Quad, QuadRecon};
use std::alloc::Global;
use std::test::Fail;

const MIN: i32 = i32::MIN;

const MAX: i32 = i32::MAX;

/// Two points each, with their centroid and their nodes.
const PAIRS: [([(i32, i32); 2], (i32, i32), u64); 5] = [
    ([(0, 0), (1, 0)], (1, 0), 31),
    ([(-1, -1), (-2, -4)], (-1, -2), 13),
    ([(MIN, MIN), (MAX, MAX)], (0, 0), 31),
    ([(MAX, MAX), (MAX, MAX)], (MAX, MAX), 11),
    ([(-7, -7), (-7, -6)], (-7, -6), 21),
];

/// Points about the middle, with their nodes.
const POINTS: [(i32, i32, u16); 6] = [
    (0, MAX, 0),
    (0, -1, 1),
    (MAX, MIN, 1),
    (-1, 0, 2),
    (-1, 1, 3),
    (MIN, MAX, 3),
];

/// Conditions, with the nodes that are visited.
const CONDS: [(PointCond, u64); 11] = [
    (PointCond::Eq(Point { x: 0, y: 0 }), 1),
    (PointCond::Left(0), 34),
    (PointCond::Left(1), 1234),
    (PointCond::Left(MIN), 0),
    (PointCond::Right(-1), 12),
    (PointCond::Right(MAX), 0),
    (PointCond::Below(0), 23),
    (PointCond::Below(1), 123),
    (PointCond::Above(0), 14),
    (PointCond::Above(-1), 134),
    (PointCond::Above(MAX), 0),
];

/// The nodes, each plus one, as the digits of a number.
fn digits(nodes: &[u16]) -> u64 {
    let mut number: u64 = 0;
    for node in nodes {
        number = number.wrapping_mul(10).wrapping_add(*node as u64 + 1);
    }
    number
}

fn rests_of(alloc: Global, points: &[(i32, i32)]) -> Result<Vec<Bytes>, Memory> {
    let mut rests = Vec::new(alloc);
    for (x, y) in points {
        rests.push(encode(alloc, Point { x: *x, y: *y })?)?;
    }
    Ok(rests)
}

fn picked<O: OpClass>(class: &O, alloc: Global, rests: &[Bytes]) -> Result<Option<Picked>, Memory> {
    if rests.is_empty() {
        return Ok(None);
    }
    let recon = class.start(alloc)?;
    Ok(Some(class.picksplit(alloc, &recon, rests)?))
}

/// Whether the points are divided at that centroid into those nodes.
fn divides(
    alloc: Global,
    points: &[(i32, i32)],
    (x, y): (i32, i32),
    nodes: u64,
) -> Result<bool, Memory> {
    let rests = rests_of(alloc, points)?;
    match picked(&Quad, alloc, rests.as_slice())? {
        Some(picked) => {
            let c = decode(picked.prefix.as_slice());
            Ok(c.x == x && c.y == y && digits(picked.node_of.as_slice()) == nodes)
        }
        None => Ok(false),
    }
}

fn tuple_at(alloc: Global, all_same: bool, c: Point) -> Result<InnerView, Memory> {
    let nodes = if all_same { 8 } else { 4 };
    tuple_with(alloc, all_same, encode(alloc, c)?, nodes)
}

/// The node that is chosen for a point.
fn chosen(alloc: Global, tuple: &InnerView, p: Point) -> Result<u16, Memory> {
    let rest = encode(alloc, p)?;
    match Quad.choose(alloc, &QuadRecon, tuple, rest.as_slice())? {
        Choice::Match { node, .. } => Ok(node),
        _ => Ok(99),
    }
}

/// The nodes that are visited for a condition, as digits.
fn kept(alloc: Global, tuple: &InnerView, cond: PointCond) -> Result<u64, Memory> {
    let kept = Quad.inner_consistent(alloc, &QuadRecon, tuple, &[cond])?;
    Ok(digits(kept.as_slice()))
}

fn admits(tuple: &InnerView, node: u16, p: Point) -> bool {
    (node as usize) < tuple.labels.len() && Quad.admits(&QuadRecon, tuple, node, &p)
}

/// Whether each two are divided as they should be.
fn divides_pairs(alloc: Global) -> Result<bool, Memory> {
    let mut all = true;
    for (points, centroid, nodes) in &PAIRS {
        all = all && divides(alloc, points.as_slice(), *centroid, *nodes)?;
    }
    Ok(all)
}

#[test]
fn divides_at_the_ceiling_of_the_average(rt: HostRuntime) -> Result<(), Fail> {
    let alloc = rt.alloc();
    assert!(rt; divides_pairs(alloc)?);
    assert!(rt; divides(alloc, &[(MIN, MAX)], (MIN, MAX), 1)?);
    assert!(rt; divides(alloc, &[(1, 1), (1, -1), (-1, -1), (-1, 1)], (0, 0), 1234)?);
    Ok(())
}

/// Whether each point goes to its node, and may not stand below the next.
fn points_go(alloc: Global, tuple: &InnerView) -> Result<bool, Memory> {
    let mut all = true;
    for (x, y, node) in &POINTS {
        let p = Point { x: *x, y: *y };
        all = all && chosen(alloc, tuple, p)? == *node;
        all = all && admits(tuple, *node, p) && !admits(tuple, (*node + 1) % 4, p);
    }
    Ok(all)
}

/// Whether each condition has its nodes.
fn keeps_its_nodes(alloc: Global, tuple: &InnerView) -> Result<bool, Memory> {
    let mut all = true;
    for (cond, nodes) in &CONDS {
        all = all && kept(alloc, tuple, *cond)? == *nodes;
    }
    Ok(all)
}

fn goes_by_quadrant(alloc: Global) -> Result<bool, Memory> {
    let tuple = tuple_at(alloc, false, Point { x: 0, y: 0 })?;
    Ok(points_go(alloc, &tuple)? && keeps_its_nodes(alloc, &tuple)?)
}

/// Whether all nodes of an all-the-same tuple are visited, or none.
fn keeps_the_same(alloc: Global) -> Result<bool, Memory> {
    let same = tuple_at(alloc, true, Point { x: 0, y: 0 })?;
    Ok(
        Quad.nodes_ok(&same)
            && admits(&same, 7, Point { x: 5, y: 5 })
            && kept(alloc, &same, PointCond::Left(MIN))? == 0
            && kept(alloc, &same, PointCond::Left(0))? == 12345678,
    )
}

#[test]
fn goes_and_looks_by_quadrant(rt: HostRuntime) -> Result<(), Fail> {
    assert!(rt; goes_by_quadrant(rt.alloc())?);
    assert!(rt; keeps_the_same(rt.alloc())?);
    Ok(())
}

/// Whether those bytes are a rest, a prefix and a key, and two are none.
fn tells(bytes: &[u8]) -> bool {
    Quad.rest_ok(bytes)
        && Quad.prefix_ok(bytes)
        && !Quad.prefix_ok(&[0, 0])
        && Quad.key_ok(&QuadRecon, bytes)
        && !Quad.key_ok(&QuadRecon, &[0, 0])
}

/// Whether the key is left of 4 and above that height.
fn is_there(bytes: &[u8], above: i32) -> bool {
    let conds = [PointCond::Left(4), PointCond::Above(above)];
    Quad.leaf_consistent(&QuadRecon, bytes, &conds)
}

#[test]
fn tells_keys_of_rests(rt: HostRuntime) -> Result<(), Fail> {
    let rest = Quad.rest_of(rt.alloc(), &Point { x: 3, y: -4 })?;
    let bytes = rest.as_slice();
    assert_eq!(rt; bytes, [3, 0, 0, 0, 252, 255, 255, 255].as_slice());
    assert!(rt; tells(bytes) && is_there(bytes, -5) && !is_there(bytes, -4));
    Ok(())
}
