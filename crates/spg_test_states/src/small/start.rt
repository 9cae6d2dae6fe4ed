//! Calls by which an index comes to be small but busy, and of which nothing need be told.

use crate::small::sections::{inserts, opens_insert};
use spg_base::{Point, Row, SeatNo};
use spg_core::{InsertOut, State};
use spg_opclass::{OpClass, Query};
use spg_test_index::calls::{insert, kill, open_scan};

/// How many leaves fill the root page.
const LEAVES: u16 = 291;

/// The point of a leaf. Their middle is 0,0: 41 lie at one point, 64 right of it and below, and the others
/// left of it and below.
fn point_of(number: u16) -> Point {
    match number {
        0..=40 => Point { x: 1, y: 7 },
        41..=104 => Point {
            x: i32::from(number) - 40,
            y: -1,
        },
        _ => Point { x: -11, y: -1 },
    }
}

/// Fills the root page. False where a row is not put.
fn fills_root<O: OpClass<Key = Point>>(state: &mut State<O>) -> bool {
    for number in 0..LEAVES {
        let row = Row::at(1, number + 1);
        match insert(state, SeatNo::first(), row, Some(point_of(number))) {
            Ok(true) => {}
            _ => return false,
        }
    }
    true
}

/// Opens a scan of all rows.
fn opens_scan<O: OpClass>(state: &mut State<O>, seat: SeatNo) -> bool {
    match open_scan(state, seat, Query::All) {
        Some(Ok(())) => true,
        _ => false,
    }
}

/// The root is divided by an insert, which is on its way then; a row is deleted, and a scan is open.
pub(crate) fn starts<O: OpClass<Key = Point>>(state: &mut State<O>, scanner: SeatNo) -> bool {
    let first = SeatNo::first();
    fills_root(state)
        && kill(state, first, Row::at(1, 46)) == Some(Ok(true))
        && opens_scan(state, scanner)
        && opens_insert(state, first, Row::at(2, 1), Some(Point { x: 65, y: -1 }))
        && inserts(state, first, InsertOut::Descended)
        && inserts(state, first, InsertOut::Restructured)
        && inserts(state, first, InsertOut::Descended)
}
