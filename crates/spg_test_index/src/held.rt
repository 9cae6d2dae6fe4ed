//! Scans that hold much while other seats move and divide what they hold.

use crate::calls::{insert, kill, open_scan};
use crate::driver::{Found, go_on};
use spg_base::{Bytes, List, Memory, Point, PointCond, Row, SeatNo};
use spg_core::{OpenKind, State};
use spg_opclass::{OpClass, Query};
use spg_quad::Quad;
use spg_radix::{ByteText, Radix};
use std::alloc::Global;
use std::mem;
use std::test::Fail;

/// The seat that scans.
fn scanner() -> SeatNo {
    SeatNo::new(1).unwrap_or(SeatNo::first())
}

/// How many items the scan holds.
fn held<O: OpClass>(state: &State<O>) -> usize {
    match state.open_of(scanner()) {
        OpenKind::Scan { held } => held,
        _ => 0,
    }
}

/// Seat 0 inserts the point 0,0 so many times with rows of the block.
fn fill(state: &mut State<Quad>, block: u32, count: u16) -> Result<(), Memory> {
    for offset in 1..=count {
        let key = Some(Point { x: 0, y: 0 });
        if !insert(state, SeatNo::first(), Row::at(block, offset), key)? {
            return Err(Memory);
        }
    }
    Ok(())
}

/// Goes on to the end of the scan, each time at its first item: the most that it held, and what it gives.
fn go_to_end<O: OpClass>(state: &mut State<O>) -> Result<(usize, Found), Memory> {
    let mut most = 0usize;
    for _ in 0..100_000u32 {
        most = most.max(held(state));
        if let Some(found) = go_on(state, scanner(), 0)? {
            return Ok((most, found));
        }
    }
    Err(Memory)
}

/// Opens the scan of the points equal to 0,0, and reads its root: how many items it holds then.
fn begin(alloc: Global, state: &mut State<Quad>) -> Result<usize, Memory> {
    let mut conds = List::new(alloc);
    conds.push(PointCond::Eq(Point { x: 0, y: 0 }))?;
    open_scan(state, scanner(), Query::Where(conds)).unwrap_or(Err(Memory))?;
    match go_on(state, scanner(), 0)? {
        None => Ok(held(state)),
        Some(_) => Err(Memory),
    }
}

/// How many items the scan holds before ten thousand rows more are put, and whether it gives each row once then.
fn take_points(alloc: Global, state: &mut State<Quad>) -> Result<(usize, usize), Memory> {
    fill(state, 1, 300)?;
    let first = begin(alloc, state)?;
    fill(state, 2, 10_000)?;
    let (_, (rows, _)) = go_to_end(state)?;
    Ok((first, rows))
}

fn points(alloc: Global) -> Result<(usize, usize), Memory> {
    let mut state = State::new(alloc, Quad, 65536)?;
    let came = take_points(alloc, &mut state);
    mem::forget(state);
    came
}

/// A scan of the points equal to 0,0 has read its root. Another seat then inserts ten thousand more, so that
/// the chains that the scan holds move and divide. The scan gives each row once.
#[test]
fn gives_each_row_of_a_chain_that_left(rt: HostRuntime) -> Result<(), Fail> {
    assert!(rt; points(rt.alloc())? == (8, 10_300));
    Ok(())
}

/// How many bytes begin a text.
const FRONTS: u16 = 250;

/// A text of 60 bytes that begins with the row's offset, from 0 to 249.
fn text(alloc: Global, offset: u16) -> Result<ByteText, Memory> {
    let mut text = Bytes::new(alloc);
    text.push((offset % FRONTS) as u8)?;
    text.extend(&[b'x'; 57])?;
    text.extend(&offset.to_be_bytes())?;
    ByteText::new(text).ok_or(Memory)
}

/// Seat 0 inserts texts with rows of the block, from one offset to another.
fn fill_texts(
    alloc: Global,
    state: &mut State<Radix>,
    block: u32,
    last: u16,
) -> Result<(), Memory> {
    for offset in 1..=last {
        let key = Some(text(alloc, offset)?);
        if !insert(state, SeatNo::first(), Row::at(block, offset), key)? {
            return Err(Memory);
        }
    }
    Ok(())
}

/// Seat 0 deletes every fifth row of block 1: how many.
fn kill_some(state: &mut State<Radix>) -> usize {
    let mut killed = 0usize;
    for offset in 1..=500u16 {
        if offset % 5 == 0 && kill(state, SeatNo::first(), Row::at(1, offset)) == Some(Ok(true)) {
            killed = killed.saturating_add(1);
        }
    }
    killed
}

/// What a scan of all texts holds at first and at most, and the rows that it gives, where others are put and
/// deleted behind its first read.
fn take_texts(alloc: Global, state: &mut State<Radix>) -> Result<[usize; 4], Memory> {
    fill_texts(alloc, state, 1, 500)?;
    open_scan(state, scanner(), Query::All).unwrap_or(Err(Memory))?;
    go_on(state, scanner(), 0)?;
    let first = held(state);
    fill_texts(alloc, state, 2, 2_000)?;
    let killed = kill_some(state);
    let (most, (rows, _)) = go_to_end(state)?;
    Ok([first, most, killed, rows])
}

fn texts(alloc: Global) -> Result<[usize; 4], Memory> {
    let mut state = State::new(alloc, Radix, 65536)?;
    let came = take_texts(alloc, &mut state);
    mem::forget(state);
    came
}

/// A scan that has read a root of 250 nodes holds each of them, and the root of the nulls tree. What was put
/// since is found where it stands on what the scan reads later; what was deleted since is not.
#[test]
fn a_scan_holds_more_than_200_items(rt: HostRuntime) -> Result<(), Fail> {
    assert!(rt; texts(rt.alloc())? == [251, 251, 100, 2_400]);
    Ok(())
}
