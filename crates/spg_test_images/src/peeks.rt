use spg_base::{List, Memory, Point, PointCond, Row};
use spg_peek::{Reader, find_some};
use spg_quad::Quad;
use spg_whole::Index;
use std::alloc::Global;
use std::test::Fail;

/// The condition that x is above this.
fn right_of(alloc: Global, x: i32) -> Result<List<PointCond>, Memory> {
    let mut conds = List::new(alloc);
    conds.push(PointCond::Right(x))?;
    Ok(conds)
}

/// Nine points on a line, row n at n,0.
fn nine(alloc: Global) -> Result<Index<Quad>, Fail> {
    let mut index = Index::new(alloc, Quad, 65_536)?;
    for n in 1..=9u16 {
        let key = Point {
            x: i32::from(n),
            y: 0,
        };
        index.insert(Row::at(1, n), Some(key))?;
    }
    Ok(index)
}

#[test]
fn finds_as_many_as_are_wanted(rt: HostRuntime) -> Result<(), Fail> {
    let alloc = rt.alloc();
    let index = nine(alloc)?;
    let two = find_some(alloc, &index, right_of(alloc, 6)?, 2)?;
    assert_eq!(rt; two.len(), 2);
    let all = find_some(alloc, &index, right_of(alloc, 6)?, 100)?;
    assert_eq!(rt;
        all.as_slice(),
        [Row::at(1, 7), Row::at(1, 8), Row::at(1, 9)].as_slice()
    );
    Ok(())
}

#[test]
fn hands_out_each_row_once(rt: HostRuntime) -> Result<(), Fail> {
    let alloc = rt.alloc();
    let index = nine(alloc)?;
    let mut reader = Reader::open(alloc, &index, right_of(alloc, 6)?)?;
    let one = reader.next(alloc, &index)?;
    let two = reader.next(alloc, &index)?;
    let three = reader.next(alloc, &index)?;
    let none = reader.next(alloc, &index)?;
    assert_eq!(rt; one, Some(Row::at(1, 7)));
    assert_eq!(rt; two, Some(Row::at(1, 8)));
    assert_eq!(rt; three, Some(Row::at(1, 9)));
    assert_eq!(rt; none, None);
    Ok(())
}
