use spg_base::{Memory, Point, PointCond};
use spg_points::{Area, all_hold, decode, encode, lower, raise};
use std::alloc::Global;
use std::test::Fail;

const MIN: i32 = i32::MIN;

const MAX: i32 = i32::MAX;

/// Whether the point is read back from its bytes, and its x from its height.
fn comes_back(alloc: Global, p: Point) -> Result<bool, Memory> {
    let bytes = encode(alloc, p)?;
    Ok(bytes.len() == 8 && decode(bytes.as_slice()) == p && lower(raise(p.x)) == p.x)
}

/// Whether the condition's area has the point exactly where the condition holds of it.
fn agrees(cond: PointCond, p: Point) -> bool {
    Area::of(cond).has(p) == all_hold(&[cond], p)
}

#[test]
fn conditions_at_the_ends_of_the_range(rt: HostRuntime) -> Result<(), Fail> {
    let points = [(MIN, MIN), (MIN, MAX), (-1, 0), (MAX, MIN), (MAX, MAX)];
    // each condition, and whether any point meets it
    let conds = [
        (PointCond::Eq(Point { x: MIN, y: MAX }), true),
        (PointCond::Left(MIN), false),
        (PointCond::Left(MAX), true),
        (PointCond::Right(MIN), true),
        (PointCond::Right(MAX), false),
        (PointCond::Below(MIN), false),
        (PointCond::Above(MAX), false),
    ];
    for (x, y) in &points {
        let p = Point { x: *x, y: *y };
        assert!(rt; comes_back(rt.alloc(), p)?);
        for (cond, _) in &conds {
            assert!(rt; agrees(*cond, p));
        }
    }
    for (cond, met) in &conds {
        assert_eq!(rt; Area::of(*cond).meets(Area::whole()), *met);
    }
    Ok(())
}
