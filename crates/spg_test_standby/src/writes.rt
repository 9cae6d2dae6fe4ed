//! Writes of a pair over points.

use spg_base::{Memory, Point, Row};
use spg_opclass::Query;
use spg_quad::Quad;
use spg_standby::{Pair, Wrote};

/// A write. Rows are of block 1.
#[derive(Clone, Copy, Debug, PartialEq, Eq)]
pub(crate) enum Write {
    /// Puts the row of this offset.
    Put(u16, Option<Point>),
    /// Deletes it.
    Kill(u16),
    Vacuum,
}

pub(crate) const ORIGIN: Option<Point> = Some(Point { x: 0, y: 0 });

/// The row of this offset.
pub(crate) fn row(offset: u16) -> Row {
    match Row::new(1, offset) {
        Some(row) => row,
        None => Row::at(1, 1),
    }
}

/// What comes of a write, and how many events there are then.
pub(crate) fn done(pair: &mut Pair<Quad>, write: Write) -> (Wrote, u64) {
    let (wrote, span) = match write {
        Write::Put(offset, key) => pair.insert(row(offset), key),
        Write::Kill(offset) => pair.kill(row(offset)),
        Write::Vacuum => pair.vacuum(),
    };
    (wrote, span.to)
}

/// How many events were applied when a find of all rows began and when it ended, and how many rows it
/// gave.
pub(crate) fn count(pair: &mut Pair<Quad>) -> Result<(u64, u64, usize), Memory> {
    let (closed, span) = pair.find(Query::All)?;
    Ok((span.from, span.to, closed.rows.as_slice().len()))
}

/// Keys that go by the row's offset.
#[derive(Clone, Copy)]
pub(crate) enum Keys {
    /// All are at the origin.
    Equal,
    /// They stand on a line.
    Line,
    /// They are spread.
    Spread,
}

impl Keys {
    fn of(self, offset: u16) -> Point {
        let number = i32::from(offset);
        match self {
            Keys::Equal => Point { x: 0, y: 0 },
            Keys::Line => Point { x: number, y: 0 },
            Keys::Spread => Point {
                x: number % 31,
                y: number % 37,
            },
        }
    }
}

/// How many of the rows up to this offset are put.
pub(crate) fn put_all(pair: &mut Pair<Quad>, last: u16, keys: Keys) -> u32 {
    let mut added = 0u32;
    for offset in 1..=last {
        if done(pair, Write::Put(offset, Some(keys.of(offset)))).0 == Wrote::Added {
            added = added.saturating_add(1);
        }
    }
    added
}
