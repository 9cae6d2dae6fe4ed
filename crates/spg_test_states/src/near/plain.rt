// A search beside a plain list of all points.
use crate::near::nearest::search;
use crate::near::others::Others;
use crate::near::turns::{Turn, row_of, take_turn};
use spg_among::NearOut;
use spg_base::{Memory, Point, SeatNo};
use spg_core::State;
use spg_kd::Kd;
use spg_near::{NearClass, NearRow, distance};
use spg_quad::Quad;
use std::alloc::Global;
use std::test::Fail;

/// Numbers that follow from a seed.
#[derive(Drop)]
struct Draw {
    last: u32,
}

impl Draw {
    /// A number below 256.
    fn next(&mut self) -> u8 {
        self.last = self
            .last
            .wrapping_mul(1_664_525)
            .wrapping_add(1_013_904_223);
        (self.last >> 24) as u8
    }

    /// A point of a small grid, so that many distances are equal.
    fn point(&mut self) -> Point {
        Point {
            x: i32::from(self.next() % 64),
            y: i32::from(self.next() % 32),
        }
    }
}

/// Rows 1.1, 1.2 and so on stand at points that are drawn. None where one is refused.
fn filled<O: NearClass>(
    alloc: Global,
    state: &mut State<O>,
    draw: &mut Draw,
) -> Result<Option<Vec<Point>>, Memory> {
    let mut points = Vec::new(alloc);
    let mut all = true;
    for row in 1..1_001 {
        let Point { x, y } = draw.point();
        let turn = Turn::Insert {
            row,
            x,
            y,
            by: 0,
            count: 1,
        };
        all = all && take_turn(state, SeatNo::first(), turn);
        points.push(Point { x, y })?;
    }
    Ok(if all { Some(points) } else { None })
}

/// All rows by distance, then by row, as a plain list.
fn sorted(alloc: Global, points: &[Point], target: Point) -> Result<Vec<NearRow>, Memory> {
    let mut rows = Vec::new(alloc);
    let mut row: u16 = 1;
    for point in points {
        rows.push(NearRow {
            row: row_of(row),
            distance: distance(target, *point),
        })?;
        row = row.wrapping_add(1);
    }
    rows.sort_unstable();
    Ok(rows)
}

/// Whether these rows are the first of those, as many as are wanted.
fn are_first(rows: &[NearRow], all: &[NearRow], limit: u16) -> bool {
    rows.len() == all.len().min(usize::from(limit))
        && rows.iter().zip(all.iter()).all(|(a, b)| a == b)
}

/// Whether a search gives the first of the plain list.
fn gives_first<O: NearClass>(
    alloc: Global,
    state: &mut State<O>,
    target: Point,
    limit: u16,
    all: &[NearRow],
) -> Result<bool, Memory> {
    let mut others = Others::new(SeatNo::first(), &[]);
    match search(alloc, state, target, limit, &mut others)? {
        Some(NearOut::Near { rows, .. }) => Ok(are_first(rows.as_slice(), all, limit)),
        _ => Ok(false),
    }
}

/// Whether searches from points that are drawn give the first of the plain list.
fn are_alike<O: NearClass>(
    alloc: Global,
    state: &mut State<O>,
    draw: &mut Draw,
    points: &[Point],
) -> Result<bool, Memory> {
    let mut alike = true;
    for _ in 0..40 {
        let target = draw.point();
        let limit = u16::from(draw.next()) + 1;
        let all = sorted(alloc, points, target)?;
        alike = alike && gives_first(alloc, state, target, limit, all.as_slice())?;
    }
    Ok(alike)
}

fn is_like_the_list<O: NearClass>(alloc: Global, class: O) -> Result<bool, Memory> {
    let mut state = State::new(alloc, class, 65536)?;
    let mut draw = Draw { last: 11 };
    match filled(alloc, &mut state, &mut draw)? {
        Some(points) => are_alike(alloc, &mut state, &mut draw, points.as_slice()),
        None => Ok(false),
    }
}

#[test]
fn gives_the_first_of_a_plain_list(rt: HostRuntime) -> Result<(), Fail> {
    assert!(rt; is_like_the_list(rt.alloc(), Quad)?);
    assert!(rt; is_like_the_list(rt.alloc(), Kd)?);
    Ok(())
}
