use crate::makes::{bunch_of, rests_of, spotted, tuple_at};
use spg_base::{Memory, Point, Same};
use spg_opclass::{Choice, Chosen, Parted, Spotted, choose_at, part_at, start_at};
use spg_points::encode;
use spg_quad::{Quad, QuadRecon};
use std::alloc::Global;
use std::test::Fail;

/// What the class answers for a point at a tuple.
fn chosen(
    alloc: Global,
    all_same: bool,
    nodes: u16,
    (x, y): (i32, i32),
) -> Result<Option<Chosen<Quad>>, Memory> {
    let tuple = tuple_at(alloc, all_same, (0, 0), nodes)?;
    let rest = encode(alloc, Point { x, y })?;
    match spotted(&Quad, QuadRecon, tuple, rest) {
        Some(spotted) => Ok(Some(choose_at(alloc, &Quad, spotted)?)),
        None => Ok(None),
    }
}

/// Whether a match with this node is answered, with so many rebuilt values and the rest of the copy.
fn is_match(chosen: &Option<Chosen<Quad>>, wanted: u16, recons: usize) -> bool {
    match chosen {
        Some(chosen) => match chosen.choice() {
            Choice::Match { node, rest } => {
                *node == wanted
                    && chosen.recons().len() == recons
                    && rest.same(chosen.spotted().rest())
            }
            _ => false,
        },
        None => false,
    }
}

/// How the class divides points.
fn parted(alloc: Global, points: &[(i32, i32)]) -> Result<Option<Parted<Quad>>, Memory> {
    match bunch_of(&Quad, QuadRecon, rests_of(alloc, points)?) {
        Some(bunch) if !bunch.rests().is_empty() => Ok(Some(part_at(alloc, &Quad, bunch)?)),
        _ => Ok(None),
    }
}

/// Whether an insert of a point starts with its whole key, and gives it back.
fn starts(alloc: Global, p: Point) -> Result<bool, Memory> {
    let rest = encode(alloc, p)?;
    let started = start_at(alloc, &Quad, Some(p))?;
    let is_whole = started.rest().same(&rest)
        && started.key().is_some()
        && started.recon().same(&QuadRecon);
    let (kept, _, _) = started.into_parts();
    Ok(is_whole && kept.is_some())
}

/// Whether an insert of a null starts without a key.
fn starts_without(alloc: Global) -> Result<bool, Memory> {
    let null = start_at(alloc, &Quad, None)?;
    Ok(null.rest().is_empty() && null.key().is_none())
}

#[test]
fn an_insert_starts_with_the_whole_key(rt: HostRuntime) -> Result<(), Fail> {
    assert!(rt; starts(rt.alloc(), Point { x: 3, y: 4 })?);
    assert!(rt; starts_without(rt.alloc())?);
    Ok(())
}

/// Whether a copy of the copy is the same.
fn is_copied(spotted: &Spotted<Quad>) -> Result<bool, Memory> {
    let copy = spotted.copy()?;
    Ok(copy.same(spotted) && copy.recon().same(&QuadRecon) && copy.tuple().labels.len() == 4)
}

/// Whether a match is answered at a tuple with so many nodes.
fn matches_at(alloc: Global, all_same: bool, nodes: u16, wanted: u16) -> Result<bool, Memory> {
    let recons = if all_same { 8 } else { 1 };
    Ok(is_match(&chosen(alloc, all_same, nodes, (5, -1))?, wanted, recons))
}

/// Whether a tuple with five nodes is none.
fn refuses_five(alloc: Global) -> Result<bool, Memory> {
    Ok(chosen(alloc, false, 5, (5, -1))?.is_none())
}

/// Whether the copy of a tuple and a rest can be copied.
fn copies(alloc: Global) -> Result<bool, Memory> {
    let one = tuple_at(alloc, false, (0, 0), 4)?;
    let rest = encode(alloc, Point { x: 1, y: 2 })?;
    match spotted(&Quad, QuadRecon, one, rest) {
        Some(spotted) => is_copied(&spotted),
        None => Ok(false),
    }
}

#[test]
fn a_choice_is_kept_with_its_copy(rt: HostRuntime) -> Result<(), Fail> {
    let alloc = rt.alloc();
    assert!(rt; matches_at(alloc, false, 4, 1)? && matches_at(alloc, true, 8, 0)?);
    assert!(rt; refuses_five(alloc)? && copies(alloc)?);
    Ok(())
}

/// Whether each point has its node, and the copy of the rests can be copied.
fn is_kept(parted: &Parted<Quad>) -> Result<bool, Memory> {
    let picked = parted.picked();
    let copy = parted.bunch().copy()?;
    Ok(
        picked.labels.len() == 4
            && picked.node_of.len() == 3
            && parted.bunch().rests().len() == 3
            && copy.same(parted.bunch())
            && copy.recon().same(&QuadRecon),
    )
}

#[test]
fn a_division_is_kept_with_its_copy(rt: HostRuntime) -> Result<(), Fail> {
    match parted(rt.alloc(), &[(0, 0), (2, -2), (2, 2)])? {
        Some(parted) => assert!(rt; is_kept(&parted)?),
        None => assert!(rt; false),
    }
    Ok(())
}
