//! Numbers in their ranges, bytes, lists and sets.

use spg_base::{
    Block, Bytes, Labels, List, Memory, Offset, Place, Row, RowSet, Same, SeatNo, Stamp, parity,
};
use std::alloc::Global;
use std::test::Fail;

/// The last moment of the clock.
const LAST: u64 = (1 << 48) - 1;

/// The number of a seat, where there is such a one.
fn seat_of(number: u8) -> Option<u8> {
    SeatNo::new(number).map(|seat| seat.number())
}

/// The moment of a stamp, where there is such a one.
fn moment_of(moment: u64) -> Option<u64> {
    Stamp::new(moment).map(|stamp| stamp.moment())
}

#[test]
fn keeps_numbers_in_their_ranges(rt: HostRuntime) -> Result<(), Fail> {
    let rows = [Row::new(7, 0), Row::new(7, 65535)];
    assert!(rt; rows == [None, Some(Row::at(7, 65535))]);
    assert!(rt; [seat_of(64), seat_of(63)] == [None, Some(63)]);
    assert!(rt; [moment_of(LAST + 1), moment_of(LAST)] == [None, Some(LAST)]);
    assert!(rt; [parity(Block(4294967295)), parity(Block(5))] == [0, 2]);
    Ok(())
}

/// The bytes a to e, put in one after another.
fn letters(alloc: Global) -> Result<Bytes, Memory> {
    let mut bytes = Bytes::copy(alloc, b"ab")?;
    bytes.push(b'c')?;
    bytes.extend(b"de")?;
    Ok(bytes)
}

fn bytes_are_kept(alloc: Global) -> Result<bool, Memory> {
    let bytes = letters(alloc)?;
    let same = bytes.copy()?.same(&bytes);
    Ok(same && bytes.as_slice() == b"abcde".as_slice() && bytes.get(2).copied() == Some(b'c'))
}

fn labels_are_kept(alloc: Global) -> Result<bool, Memory> {
    let mut labels = Labels::new(alloc);
    labels.push(-2)?;
    let same = labels.copy()?.same(&labels);
    Ok(same && labels.get(0).copied() == Some(-2))
}

#[test]
fn keeps_bytes_and_labels(rt: HostRuntime) -> Result<(), Fail> {
    assert!(rt; bytes_are_kept(rt.alloc())?);
    assert!(rt; labels_are_kept(rt.alloc())?);
    Ok(())
}

fn places_are_kept(alloc: Global) -> Result<bool, Memory> {
    let place = Place {
        block: Block(3),
        offset: Offset(1),
    };
    let mut places = List::new(alloc);
    places.push(place)?;
    let same = places.copy()?.same(&places);
    Ok(same && places.get(0).copied() == Some(place) && places.get(1).is_none())
}

#[test]
fn keeps_lists(rt: HostRuntime) -> Result<(), Fail> {
    assert!(rt; places_are_kept(rt.alloc())?);
    Ok(())
}

/// Which of the rows 1.1, 1.2 and 1.3 a set has.
fn has(rows: &RowSet) -> [bool; 3] {
    [
        rows.has(Row::at(1, 1)),
        rows.has(Row::at(1, 2)),
        rows.has(Row::at(1, 3)),
    ]
}

/// The set of the rows of block 1 with offsets from one number to another.
fn rows_of(alloc: Global, from: u16, to: u16) -> Result<RowSet, Memory> {
    let mut rows = RowSet::new(alloc);
    for offset in from..=to {
        rows.add(Row::at(1, offset.max(1)))?;
    }
    Ok(rows)
}

/// One set takes all rows of another, and lets the last one go.
fn are_taken(rows: &mut RowSet, more: &mut RowSet) -> Result<bool, Memory> {
    rows.take_all(more)?;
    rows.remove(Row::at(1, 3));
    Ok(has(rows) == [true, true, false] && more.is_empty() && has(more) == [false; 3])
}

fn sets_are_kept(alloc: Global) -> Result<bool, Memory> {
    let mut rows = rows_of(alloc, 1, 1)?;
    let mut more = rows_of(alloc, 2, 3)?;
    let apart = has(&rows) == [true, false, false] && has(&more) == [false, true, true];
    Ok(are_taken(&mut rows, &mut more)? && apart)
}

#[test]
fn keeps_sets_of_rows(rt: HostRuntime) -> Result<(), Fail> {
    assert!(rt; sets_are_kept(rt.alloc())?);
    Ok(())
}
