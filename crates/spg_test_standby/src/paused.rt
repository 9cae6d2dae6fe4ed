//! Records offered one by one to a standby whose seats search.

use crate::writes::{Keys, Write, done, put_all};
use spg_base::{Memory, SeatNo};
use spg_opclass::Query;
use spg_quad::Quad;
use spg_standby::{ApplyOut, Pair, Paused, Wrote};
use std::alloc::Global;
use std::test::Fail;

/// More records than the writes leave.
const ALL: u32 = 1_000;

/// How many rows are put.
const ROWS: u16 = 292;

/// The seat of this number.
pub(crate) fn seat(number: u8) -> SeatNo {
    match SeatNo::new(number) {
        Some(seat) => seat,
        None => SeatNo::first(),
    }
}

/// A standby of no rows. Among the queued records one makes a redirect of stamp 0, and a later one takes it
/// away.
fn paused(alloc: Global) -> Result<Option<Paused<Quad>>, Memory> {
    let mut pair = Pair::new(alloc, Quad, 4096, ALL)?;
    if put_all(&mut pair, ROWS, Keys::Equal) == u32::from(ROWS)
        && done(&mut pair, Write::Vacuum).0 == Wrote::Vacuumed(0)
    {
        return Ok(Some(pair.pause()));
    }
    Ok(None)
}

/// Whether the oldest record is applied.
pub(crate) fn applies(paused: &mut Paused<Quad>) -> Result<bool, Memory> {
    Ok(paused.offer()? == Some(ApplyOut::Applied))
}

/// Whether the oldest record is held back by this seat.
fn is_held_by(paused: &mut Paused<Quad>, number: u8) -> Result<bool, Memory> {
    Ok(paused.offer()? == Some(ApplyOut::Held { by: seat(number) }))
}

/// Whether no record is queued.
pub(crate) fn is_level(paused: &mut Paused<Quad>) -> Result<bool, Memory> {
    Ok(paused.offer()? == None)
}

/// How many records are applied, until one is held back or none is left.
fn apply_all(paused: &mut Paused<Quad>) -> Result<u32, Memory> {
    let mut applied = 0u32;
    for _record in 0..ALL {
        if applies(paused)? {
            applied = applied.saturating_add(1);
        }
    }
    Ok(applied)
}

/// Opens a scan of all rows at a seat.
pub(crate) fn open(paused: &mut Paused<Quad>, number: u8) -> Result<(), Memory> {
    paused.open(seat(number), Query::All)
}

/// How many rows the scan of a seat gives, where it has one open.
fn rows_of(paused: &mut Paused<Quad>, number: u8) -> Result<Option<usize>, Memory> {
    match paused.finish(seat(number))? {
        Some(closed) => Ok(Some(closed.rows.as_slice().len())),
        None => Ok(None),
    }
}

/// Which seats have scans open, and which hold the record back one after another.
#[derive(Clone, Copy)]
struct Case {
    open: &'static [u8],
    holders: &'static [u8],
}

const CASES: [Case; 4] = [
    Case {
        open: &[1],
        holders: &[1],
    },
    Case {
        open: &[63, 1],
        holders: &[1, 63],
    },
    Case {
        open: &[63, 0, 62],
        holders: &[0, 62, 63],
    },
    Case {
        open: &[],
        holders: &[],
    },
];

/// Opens the scans of a case.
fn open_all(paused: &mut Paused<Quad>, numbers: &[u8]) -> Result<(), Memory> {
    for number in numbers {
        open(paused, *number)?;
    }
    Ok(())
}

/// Whether this seat holds the record back, also where a scan opens at seat 30, which does not need the
/// redirect that is there by then. The scan of the seat is then closed, and gives all rows.
fn holds(paused: &mut Paused<Quad>, number: u8) -> Result<bool, Memory> {
    let held = is_held_by(paused, number)?;
    open(paused, 30)?;
    let still = is_held_by(paused, number)?;
    let rows = rows_of(paused, number)?;
    Ok(held && still && rows == Some(usize::from(ROWS)))
}

/// How many of these seats hold the record back, one after another.
fn held_in_turn(paused: &mut Paused<Quad>, numbers: &[u8]) -> Result<usize, Memory> {
    let mut held = 0usize;
    for number in numbers {
        if holds(paused, *number)? {
            held = held.saturating_add(1);
        }
    }
    Ok(held)
}

/// Whether the seats hold the record back as told, and it and all behind it are applied then.
fn is_held(paused: &mut Paused<Quad>, case: &Case) -> Result<bool, Memory> {
    open_all(paused, case.open)?;
    let _applied = apply_all(paused)?;
    let held = held_in_turn(paused, case.holders)?;
    let then = apply_all(paused)?;
    Ok(held == case.holders.len() && (then > 0) == (held > 0) && is_level(paused)?)
}

fn is_held_then(alloc: Global, case: &Case) -> Result<bool, Memory> {
    match paused(alloc)? {
        Some(mut paused) => is_held(&mut paused, case),
        None => Ok(false),
    }
}

#[test]
fn a_redirect_is_held_by_the_lowest_seat_that_needs_it(rt: HostRuntime) -> Result<(), Fail> {
    for case in &CASES {
        assert!(rt; is_held_then(rt.alloc(), case)?);
    }
    Ok(())
}
