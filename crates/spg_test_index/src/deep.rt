//! A tree of many levels: each text begins the next one, so each division makes a level.

use crate::calls::{kill, open_vacuum, vacuum_step};
use crate::driver::{Found, find, insert};
use spg_base::{Bytes, List, Memory, Row, SeatNo};
use spg_core::{State, VacuumOut};
use spg_opclass::Query;
use spg_radix::{ByteText, Radix, TextCond};
use std::alloc::Global;
use std::mem;
use std::test::Fail;

/// How many texts there are.
const COUNT: u16 = 250;

/// A text of so many equal letters.
fn text(alloc: Global, length: u16) -> Result<ByteText, Memory> {
    let mut text = Bytes::new(alloc);
    for _ in 0..length {
        text.push(b'a')?;
    }
    ByteText::new(text).ok_or(Memory)
}

/// Finds the row of the text of so many letters.
fn find_text(alloc: Global, state: &mut State<Radix>, length: u16) -> Result<Found, Memory> {
    let mut conds = List::new(alloc);
    conds.push(TextCond::Eq(text(alloc, length)?))?;
    find(state, Query::Where(conds))
}

/// Inserts all texts: how many sections the last one took.
fn fill(alloc: Global, state: &mut State<Radix>) -> Result<usize, Memory> {
    let mut log = Vec::new(alloc);
    for length in 1..=COUNT {
        let key = Some(text(alloc, length)?);
        insert(state, Row::at(1, length), key, &mut log)?;
    }
    Ok(log.len())
}

/// Seat 0 deletes every second row: how many.
fn kill_half(state: &mut State<Radix>) -> u64 {
    let mut killed = 0u64;
    for length in 1..=COUNT {
        if length % 2 == 0 && kill(state, SeatNo::first(), Row::at(1, length)) == Some(Ok(true)) {
            killed = killed.saturating_add(1);
        }
    }
    killed
}

/// Seat 0 vacuums: how many rows it sweeps.
fn vacuum(state: &mut State<Radix>) -> Result<u64, Memory> {
    if open_vacuum(state, SeatNo::first()) != Some(Ok(())) {
        return Err(Memory);
    }
    for _ in 0..100_000u32 {
        match vacuum_step(state, SeatNo::first()) {
            Some(Ok(VacuumOut::Finished { swept })) => return Ok(swept),
            Some(Ok(_)) => {}
            _ => return Err(Memory),
        }
    }
    Err(Memory)
}

/// What came of the tree: the sections of the last insert, the inner tuples, what a find of the longest text
/// gives and meets, how many rows were deleted and swept, and how many all are then.
#[derive(Clone, Copy, PartialEq, Eq)]
struct Came {
    sections: usize,
    inner: u64,
    longest: Found,
    killed: u64,
    swept: u64,
    left: usize,
}

fn take(alloc: Global, state: &mut State<Radix>) -> Result<Came, Memory> {
    let sections = fill(alloc, state)?;
    let inner = state.stat().inner;
    let longest = find_text(alloc, state, COUNT)?;
    let killed = kill_half(state);
    let swept = vacuum(state)?;
    let (left, _) = find(state, Query::All)?;
    Ok(Came {
        sections,
        inner,
        longest,
        killed,
        swept,
        left,
    })
}

fn come(alloc: Global) -> Result<Came, Memory> {
    let mut state = State::new(alloc, Radix, 65536)?;
    let came = take(alloc, &mut state);
    mem::forget(state);
    came
}

/// The texts stand in 144 levels and a chain of 106. The find of the longest one meets them all.
#[test]
fn goes_down_many_levels(rt: HostRuntime) -> Result<(), Fail> {
    let wanted = Came {
        sections: 145,
        inner: 144,
        longest: (1, 250),
        killed: 125,
        swept: 125,
        left: 125,
    };
    assert!(rt; come(rt.alloc())? == wanted);
    Ok(())
}
