//! The lives of rows, and what a scan may and must give of them.

use spg_base::{Memory, Point, PointCond, Row, Rows};
use spg_opclass::Query;
use spg_quad::Quad;
use std::alloc::Global;

/// The rows of the list are 1.1, 1.2 and so on, so many.
pub(crate) const ROWS: u16 = 800;

/// What is known of a life of a row: the row, its key, whether it was dropped, the positions of the
/// events that put and deleted it, and the vacuum that swept it.
#[derive(Clone, Copy)]
pub(crate) struct Life {
    pub(crate) row: usize,
    pub(crate) key: Option<Point>,
    pub(crate) dropped: bool,
    pub(crate) put: Option<u64>,
    pub(crate) killed: Option<u64>,
    pub(crate) swept: Option<usize>,
}

/// The query asks for the key.
fn asks_for(query: &Query<Quad>, key: Option<Point>) -> bool {
    match (query, key) {
        (Query::All, _) | (Query::Null, None) => true,
        (Query::Where(conds), Some(point)) => conds
            .as_slice()
            .iter()
            .all(|cond| meets(*cond, point)),
        _ => false,
    }
}

fn meets(cond: PointCond, point: Point) -> bool {
    match cond {
        PointCond::Left(x) => point.x < x,
        _ => false,
    }
}

/// A scan that opened at a position may give the life's row: it was put, and not deleted before.
fn may_be_found(life: &Life, opened: u64) -> bool {
    life.put.is_some() && life.killed.is_none_or(|at| opened < at)
}

/// It must give the row: the life was put before, and is not deleted yet.
fn must_be_found(life: &Life, opened: u64) -> bool {
    life.put.is_some_and(|at| at < opened) && life.killed.is_none()
}

/// Where the list has the row.
pub(crate) fn index_of(row: Row) -> usize {
    usize::from(row.offset()).saturating_sub(1)
}

/// What a scan says of a row: whether it gave it, whether it may and whether it must.
#[derive(Clone, Copy)]
struct Found {
    given: bool,
    may: bool,
    must: bool,
}

impl Found {
    fn is_right(self) -> bool {
        if self.given { self.may } else { !self.must }
    }
}

/// Nothing is known of what a scan says of any row.
fn unknown(alloc: Global) -> Result<Vec<Found>, Memory> {
    let mut found = Vec::new(alloc);
    let nothing = Found {
        given: false,
        may: false,
        must: false,
    };
    found.resize(usize::from(ROWS), nothing)?;
    Ok(found)
}

/// Notes the rows that a scan gave. False where it gave one twice.
fn note_given(found: &mut Vec<Found>, rows: &Rows) -> bool {
    for row in rows.as_slice() {
        match found.get_mut(index_of(*row)) {
            Some(entry) if !entry.given => entry.given = true,
            _ => return false,
        }
    }
    true
}

/// Notes which rows the scan may give, and which it must.
fn note_lives(found: &mut Vec<Found>, lives: &[Life], query: &Query<Quad>, opened: u64) {
    for life in lives {
        if asks_for(query, life.key)
            && let Some(entry) = found.get_mut(life.row)
        {
            entry.may = entry.may || may_be_found(life, opened);
            entry.must = entry.must || must_be_found(life, opened);
        }
    }
}

/// What a scan gave is right.
pub(crate) fn is_right(
    alloc: Global,
    lives: &[Life],
    query: &Query<Quad>,
    opened: u64,
    rows: &Rows,
) -> Result<bool, Memory> {
    let mut found = unknown(alloc)?;
    let once = note_given(&mut found, rows);
    note_lives(&mut found, lives, query, opened);
    Ok(once && found.iter().all(|entry| entry.is_right()))
}
