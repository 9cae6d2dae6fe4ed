//! Scans of a standby that stay open while it applies what a primary did: chains that moved and divided, rows that
//! were swept and used again, redirects that aged.

use crate::paused::{is_level, open, seat};
use crate::writes::{Keys, ORIGIN, Write, done, put_all};
use spg_base::{Memory, Rows};
use spg_quad::Quad;
use spg_standby::{ApplyOut, Pair, Paused, Wrote};
use std::alloc::Global;
use std::test::Fail;

/// More records than the writes leave.
const ALL: u32 = 10_000;

/// How many rows are put. Each second one is then deleted, swept and put again.
const ROWS: u16 = 600;

const HALF: u32 = 300;

/// A scan opens at each seat below this one, and so many records are offered behind each opening.
const SEATS: u8 = 60;

const EVERY: u32 = 100;

/// The seat whose scans are read as soon as they open.
const NOW: u8 = 63;

/// How many of every second row come to this, where `again` says whether it is put or deleted.
fn every_second(pair: &mut Pair<Quad>, again: bool) -> u32 {
    let mut came = 0u32;
    for offset in 1..=ROWS {
        let (write, wrote) = if again {
            (Write::Put(offset, ORIGIN), Wrote::Added)
        } else {
            (Write::Kill(offset), Wrote::Killed)
        };
        if offset % 2 == 0 && done(pair, write).0 == wrote {
            came = came.saturating_add(1);
        }
    }
    came
}

/// Whether rows are put, half of them are deleted, swept and put again, and redirects age.
fn changes(pair: &mut Pair<Quad>) -> bool {
    put_all(pair, ROWS, Keys::Spread) == u32::from(ROWS)
        && every_second(pair, false) == HALF
        && done(pair, Write::Vacuum).0 == Wrote::Vacuumed(u64::from(HALF))
        && every_second(pair, true) == HALF
        && done(pair, Write::Vacuum).0 == Wrote::Vacuumed(0)
        && pair.primary().pages().clock() > 0
}

fn are_same(rows: &Rows, others: &Rows) -> bool {
    let (rows, others) = (rows.as_slice(), others.as_slice());
    rows.len() == others.len()
        && rows
            .iter()
            .zip(others.iter())
            .all(|(one, other)| *one == *other)
}

/// Whether the scan of a seat, which is now read to its end, gives what one gives that opens now. None where the
/// seat has none open.
fn agrees(paused: &mut Paused<Quad>, number: u8) -> Result<Option<bool>, Memory> {
    let Some(closed) = paused.finish(seat(number))? else {
        return Ok(None);
    };
    open(paused, NOW)?;
    match paused.finish(seat(NOW))? {
        Some(now) => Ok(Some(are_same(&closed.rows, &now.rows))),
        None => Ok(Some(false)),
    }
}

/// How many open scans agree, each of which is then closed.
fn close_all(paused: &mut Paused<Quad>) -> Result<u32, Memory> {
    let mut agree = 0u32;
    for number in 0..SEATS {
        if agrees(paused, number)? == Some(true) {
            agree = agree.saturating_add(1);
        }
    }
    Ok(agree)
}

/// Offers the oldest record. Where a scan holds it back, all are closed: how many agree.
fn go_on(paused: &mut Paused<Quad>) -> Result<u32, Memory> {
    match paused.offer()? {
        Some(ApplyOut::Held { .. }) => close_all(paused),
        Some(ApplyOut::Applied) | None => Ok(0),
    }
}

/// Offers records. How many scans agree that were open when one held a record back.
fn go_far(paused: &mut Paused<Quad>, records: u32) -> Result<u32, Memory> {
    let mut agree = 0u32;
    for _record in 0..records {
        agree = agree.saturating_add(go_on(paused)?);
    }
    Ok(agree)
}

/// Opens scans between the records. How many agree that were open when one held a record back.
fn go_through(paused: &mut Paused<Quad>) -> Result<u32, Memory> {
    let mut agree = 0u32;
    for number in 0..SEATS {
        open(paused, number)?;
        agree = agree.saturating_add(go_far(paused, EVERY)?);
    }
    Ok(agree)
}

/// Whether all scans agree, some when one held a record back and others later, and each record is applied.
fn all_agree(paused: &mut Paused<Quad>) -> Result<bool, Memory> {
    let held = go_through(paused)?;
    let open = close_all(paused)?;
    let _none = go_far(paused, ALL)?;
    Ok(held > 0 && open > 0 && held.saturating_add(open) == u32::from(SEATS) && is_level(paused)?)
}

fn all_agree_then(alloc: Global) -> Result<bool, Memory> {
    let mut pair = Pair::new(alloc, Quad, 4096, ALL)?;
    if !changes(&mut pair) {
        return Ok(false);
    }
    all_agree(&mut pair.pause())
}

#[test]
fn a_scan_that_was_open_long_gives_what_a_new_one_gives(rt: HostRuntime) -> Result<(), Fail> {
    assert!(rt; all_agree_then(rt.alloc())?);
    Ok(())
}
