//! Whole inserts and finds of seat 0.

use crate::calls::{close_scan, insert_or_give_up, open_insert, open_scan, scan_read};
use spg_base::{Memory, Row, SeatNo};
use spg_core::{Closed, InsertOut, OpenKind, OpenRefused, State, StepRefused};
use spg_opclass::{OpClass, Query};

/// How many rows a find has given, and how many tuples it has met.
pub(crate) type Found = (usize, u64);

/// The letter of what came of a section.
fn letter_of(out: Option<Result<InsertOut, StepRefused>>) -> Result<u8, Memory> {
    match out {
        Some(Ok(InsertOut::Descended)) => Ok(b'D'),
        Some(Ok(InsertOut::Restructured)) => Ok(b'S'),
        Some(Ok(InsertOut::Restarted { .. })) => Ok(b'R'),
        Some(Ok(InsertOut::Put)) => Ok(b'P'),
        Some(Err(StepRefused::IndexFull)) => Ok(b'F'),
        _ => Err(Memory),
    }
}

/// Does sections of the insert that is open to its end, and notes a letter of each. An insert that finds the
/// index full is given up.
fn go_through<O: OpClass>(state: &mut State<O>, log: &mut Vec<u8>) -> Result<(), Memory> {
    for _ in 0..2_000u32 {
        let letter = letter_of(insert_or_give_up(state, SeatNo::first()))?;
        log.push(letter)?;
        if letter == b'P' || letter == b'F' {
            return Ok(());
        }
    }
    Err(Memory)
}

/// Inserts a row, and notes a letter of each section, or `U` where the row is used.
pub(crate) fn insert<O: OpClass>(
    state: &mut State<O>,
    row: Row,
    key: Option<O::Key>,
    log: &mut Vec<u8>,
) -> Result<(), Memory> {
    log.clear();
    match open_insert(state, SeatNo::first(), row, key) {
        Some(Ok(())) => go_through(state, log),
        Some(Err(OpenRefused::RowUsed)) => Ok(log.push(b'U')?),
        _ => Err(Memory),
    }
}

/// What a scan has given and met.
fn told(closed: &Closed) -> Found {
    (closed.rows.len(), closed.met)
}

/// Reads the item of this number of the scan that is open, or the last one, or closes the scan where it holds
/// none. None where it goes on.
pub(crate) fn go_on<O: OpClass>(
    state: &mut State<O>,
    seat: SeatNo,
    item: usize,
) -> Result<Option<Found>, Memory> {
    let OpenKind::Scan { held } = state.open_of(seat) else {
        return Err(Memory);
    };
    if held == 0 {
        return match close_scan(state, seat) {
            Some(Ok(closed)) => Ok(Some(told(&closed))),
            _ => Err(Memory),
        };
    }
    match scan_read(state, seat, item.min(held - 1)) {
        Some(Ok(_)) => Ok(None),
        _ => Err(Memory),
    }
}

/// Finds rows, the last item first.
pub(crate) fn find<O: OpClass>(state: &mut State<O>, query: Query<O>) -> Result<Found, Memory> {
    open_scan(state, SeatNo::first(), query).unwrap_or(Err(Memory))?;
    for _ in 0..100_000u32 {
        if let Some(found) = go_on(state, SeatNo::first(), usize::MAX)? {
            return Ok(found);
        }
    }
    Err(Memory)
}
