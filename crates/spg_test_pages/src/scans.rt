use crate::makes::{conds_of, inner_of, leaves_of, rests_of};
use spg_base::{Block, List, Memory, Offset, Place, Point, PointCond, Row, Rows, Same};
use spg_opclass::{Copied, InnerCopy, LeavesCopy, Sifted, sift};
use spg_points::{encode, zero_labels};
use spg_quad::{Quad, QuadRecon};
use std::alloc::Global;
use std::test::Fail;

/// A place on block 3.
fn place(offset: u16) -> Place {
    Place {
        block: Block(3),
        offset: Offset(offset),
    }
}

/// A tuple at 0,0 of which the second node is empty.
fn inner(alloc: Global) -> Result<Option<InnerCopy<Quad>>, Memory> {
    let mut links = List::new(alloc);
    links.push(Some(place(1)))?;
    links.push(None)?;
    links.push(Some(place(2)))?;
    links.push(Some(place(3)))?;
    let prefix = encode(alloc, Point { x: 0, y: 0 })?;
    let labels = zero_labels(alloc, 4)?;
    Ok(inner_of(&Quad, QuadRecon, prefix, labels, links))
}

/// Leaves 1.1 of 1,1 and 1.2 of 5,-1.
fn leaves(alloc: Global) -> Result<Option<LeavesCopy<Quad>>, Memory> {
    let mut rows = Rows::new(alloc);
    rows.push(Row::at(1, 1))?;
    rows.push(Row::at(1, 2))?;
    let rests = rests_of(alloc, &[(1, 1), (5, -1)])?;
    Ok(leaves_of(&Quad, QuadRecon, rows, rests))
}

/// The nodes of a sifted copy, each plus one, as the digits of a number.
fn digits(sifted: &Sifted<Quad>) -> u64 {
    let mut number: u64 = 0;
    for i in 0..sifted.nodes().len() {
        if let Some((node, _)) = sifted.nodes().get(i) {
            number = number.wrapping_mul(10).wrapping_add(*node as u64 + 1);
        }
    }
    number
}

/// Whether just these nodes, and no row, are left of a copy, which is kept.
fn keeps_nodes(alloc: Global, copied: Copied<Quad>, nodes: u64) -> Result<bool, Memory> {
    let again = copied.copy()?;
    let sifted = sift(alloc, &Quad, copied)?;
    Ok(digits(&sifted) == nodes && sifted.rows().is_empty() && sifted.copied().same(&again))
}

/// Whether the copy tells of its four nodes.
fn is_inner(tuple: &InnerCopy<Quad>) -> bool {
    tuple.links().len() == 4 && tuple.recon().same(&QuadRecon) && tuple.tuple().labels.len() == 4
}

#[test]
fn nodes_of_an_inner_tuple_are_sifted(rt: HostRuntime) -> Result<(), Fail> {
    let alloc = rt.alloc();
    let conds = conds_of(alloc, PointCond::Left(0))?;
    match inner(alloc)? {
        Some(tuple) => {
            assert!(rt; is_inner(&tuple));
            assert!(rt; keeps_nodes(alloc, Copied::Inner { tuple, conds }, 34)?);
        }
        None => assert!(rt; false),
    }
    Ok(())
}

#[test]
fn every_node_is_kept_without_conditions(rt: HostRuntime) -> Result<(), Fail> {
    let alloc = rt.alloc();
    let conds = List::new(alloc);
    match inner(alloc)? {
        Some(tuple) => assert!(rt; keeps_nodes(alloc, Copied::Inner { tuple, conds }, 1234)?),
        None => assert!(rt; false),
    }
    Ok(())
}

/// Whether just row 1.2, and no node, is left of a copy, which is kept.
fn keeps_the_second(alloc: Global, copied: Copied<Quad>) -> Result<bool, Memory> {
    let again = copied.copy()?;
    let sifted = sift(alloc, &Quad, copied)?;
    Ok(
        sifted.rows().len() == 1
            && sifted.rows().get(0) == Some(&Row::at(1, 2))
            && sifted.nodes().is_empty()
            && sifted.copied().same(&again),
    )
}

/// Whether the copy tells of its two leaves.
fn are_leaves(leaves: &LeavesCopy<Quad>) -> bool {
    leaves.rows().len() == 2 && leaves.rests().len() == 2 && leaves.recon().same(&QuadRecon)
}

#[test]
fn rows_of_leaves_are_sifted(rt: HostRuntime) -> Result<(), Fail> {
    let alloc = rt.alloc();
    let conds = conds_of(alloc, PointCond::Eq(Point { x: 5, y: -1 }))?;
    match leaves(alloc)? {
        Some(leaves) => {
            assert!(rt; are_leaves(&leaves));
            assert!(rt; keeps_the_second(alloc, Copied::Leaves { leaves, conds })?);
        }
        None => assert!(rt; false),
    }
    Ok(())
}
