//! Writes of a pair, each with a find after it. What they answer comes from another model.

use crate::writes::{Keys, ORIGIN, Write, count, done, put_all};
use spg_base::{Memory, Point, Rows};
use spg_opclass::Query;
use spg_quad::Quad;
use spg_standby::{Pair, Wrote};
use std::alloc::Global;
use std::test::Fail;

/// How many records the standby may be behind.
const LAGS: [u32; 4] = [0, 1, 2, 1000];

/// A write, what came of it, how many events the journal has then, and what a find of all rows behind it
/// gives, by each number of records that the standby may be behind.
#[derive(Clone, Copy)]
struct Step {
    write: Write,
    wrote: Wrote,
    events: u64,
    found: [Found; 4],
}

/// How many events were applied when a find began and when it ended, and the offsets of the rows that it
/// gave.
type Found = (u64, u64, &'static [u16]);

const STEPS: [Step; 10] = [
    Step {
        write: Write::Put(1, ORIGIN),
        wrote: Wrote::Added,
        events: 2,
        found: [(2, 2, &[1]), (1, 2, &[1]), (1, 2, &[]), (0, 1, &[])],
    },
    Step {
        write: Write::Put(2, Some(Point { x: 1, y: 1 })),
        wrote: Wrote::Added,
        events: 4,
        found: [(4, 4, &[1, 2]), (3, 4, &[1, 2]), (3, 4, &[1]), (1, 3, &[1])],
    },
    Step {
        write: Write::Put(2, ORIGIN),
        wrote: Wrote::RowUsed,
        events: 4,
        found: [
            (4, 4, &[1, 2]),
            (4, 4, &[1, 2]),
            (4, 4, &[1, 2]),
            (3, 4, &[1]),
        ],
    },
    // The null's root is read last, when its record is applied.
    Step {
        write: Write::Put(3, None),
        wrote: Wrote::Added,
        events: 6,
        found: [
            (6, 6, &[1, 2, 3]),
            (5, 6, &[1, 2, 3]),
            (5, 6, &[1, 2, 3]),
            (4, 5, &[1, 2]),
        ],
    },
    Step {
        write: Write::Kill(1),
        wrote: Wrote::Killed,
        events: 7,
        found: [
            (7, 7, &[2, 3]),
            (6, 7, &[2, 3]),
            (6, 7, &[2, 3]),
            (5, 7, &[1, 2, 3]),
        ],
    },
    Step {
        write: Write::Kill(1),
        wrote: Wrote::NotLive,
        events: 7,
        found: [
            (7, 7, &[2, 3]),
            (7, 7, &[2, 3]),
            (7, 7, &[2, 3]),
            (7, 7, &[2, 3]),
        ],
    },
    // A row that was deleted is used until a vacuum has swept it.
    Step {
        write: Write::Put(1, ORIGIN),
        wrote: Wrote::RowUsed,
        events: 7,
        found: [
            (7, 7, &[2, 3]),
            (7, 7, &[2, 3]),
            (7, 7, &[2, 3]),
            (7, 7, &[2, 3]),
        ],
    },
    Step {
        write: Write::Vacuum,
        wrote: Wrote::Vacuumed(1),
        events: 10,
        found: [
            (10, 10, &[2, 3]),
            (9, 10, &[2, 3]),
            (9, 10, &[2, 3]),
            (7, 9, &[2, 3]),
        ],
    },
    Step {
        write: Write::Put(1, ORIGIN),
        wrote: Wrote::Added,
        events: 12,
        found: [
            (12, 12, &[1, 2, 3]),
            (11, 12, &[1, 2, 3]),
            (11, 12, &[2, 3]),
            (9, 10, &[2, 3]),
        ],
    },
    Step {
        write: Write::Vacuum,
        wrote: Wrote::Vacuumed(0),
        events: 14,
        found: [
            (14, 14, &[1, 2, 3]),
            (13, 14, &[1, 2, 3]),
            (13, 14, &[1, 2, 3]),
            (10, 11, &[2, 3]),
        ],
    },
];

/// The rows are those of these offsets.
fn are(rows: &Rows, offsets: &[u16]) -> bool {
    rows.as_slice().len() == offsets.len()
        && rows.as_slice().iter().zip(offsets.iter()).all(|(one, offset)| one.block() == 1
            && one.offset() == *offset)
}

/// Whether a find of all rows gives this.
fn finds(pair: &mut Pair<Quad>, found: &Found) -> Result<bool, Memory> {
    let (closed, span) = pair.find(Query::All)?;
    Ok((span.from, span.to) == (found.0, found.1) && are(&closed.rows, found.2))
}

/// Whether a step's write and the find behind it answer what the step says, where what the find gives
/// stands at this place.
fn is_as_told(pair: &mut Pair<Quad>, step: &Step, place: usize) -> Result<bool, Memory> {
    let wrote = done(pair, step.write) == (step.wrote, step.events);
    match step.found.as_slice().get(place) {
        Some(found) => Ok(finds(pair, found)? && wrote),
        None => Ok(false),
    }
}

/// The number of events at the first step that answers another thing.
fn first_other(pair: &mut Pair<Quad>, place: usize) -> Result<Option<u64>, Memory> {
    for step in &STEPS {
        if !is_as_told(pair, step, place)? {
            return Ok(Some(step.events));
        }
    }
    Ok(None)
}

/// The same of a new pair.
fn first_other_at(alloc: Global, place: usize, lag: u32) -> Result<Option<u64>, Memory> {
    let mut pair = Pair::new(alloc, Quad, 4096, lag)?;
    first_other(&mut pair, place)
}

#[test]
fn a_standby_finds_what_was_applied(rt: HostRuntime) -> Result<(), Fail> {
    for (place, lag) in LAGS.iter().enumerate() {
        assert_eq!(rt; first_other_at(rt.alloc(), place, *lag)?, None);
    }
    Ok(())
}

/// How many of every other row up to this offset are deleted.
fn kill_every_other(pair: &mut Pair<Quad>, last: u16) -> u32 {
    let mut killed = 0u32;
    for offset in 1..=last {
        if offset % 2 == 1 && done(pair, Write::Kill(offset)).0 == Wrote::Killed {
            killed = killed.saturating_add(1);
        }
    }
    killed
}

/// Whether a vacuum sweeps half of the rows, and the row that is put then is found, while the standby is
/// behind.
fn sweeps_half(pair: &mut Pair<Quad>) -> Result<bool, Memory> {
    Ok(
        put_all(pair, 300, Keys::Line) == 300
            && kill_every_other(pair, 300) == 150
            && count(pair)? == (748, 750, 150)
            && done(pair, Write::Vacuum) == (Wrote::Vacuumed(150), 902)
            && count(pair)? == (901, 902, 150)
            && done(pair, Write::Put(1, ORIGIN)) == (Wrote::Added, 904)
            && count(pair)? == (903, 904, 151),
    )
}

/// The same of a new pair.
fn sweeps_half_at(alloc: Global, lag: u32) -> Result<bool, Memory> {
    let mut pair = Pair::new(alloc, Quad, 4096, lag)?;
    sweeps_half(&mut pair)
}

/// A vacuum reaches the standby of an index that was divided.
#[test]
fn a_vacuum_reaches_the_standby(rt: HostRuntime) -> Result<(), Fail> {
    assert!(rt; sweeps_half_at(rt.alloc(), 2)?);
    Ok(())
}
