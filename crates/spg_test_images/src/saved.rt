//! The bytes of saved indexes. They come from another model of the index.

use spg_base::{Bytes, List, Memory, Point, Row};
use spg_image::{SaveRefused, save};
use spg_io::{FaultyImages, PlainImages};
use spg_quad::Quad;
use spg_whole::Index;
use std::alloc::{AllocError, Global};
use std::mem;
use std::test::Fail;

/// So many zeros, then these bytes.
type Run = (u32, &'static [u8]);

/// The bytes of the image of three rows.
const THREE_ROWS: [Run; 10] = [
    (0, &[83, 80, 71, 88, 1, 0, 1]),
    (7, &[248, 31]),
    (8, &[1, 0, 0, 0, 3]),
    (
        8163,
        &[83, 80, 71, 88, 1, 0, 3, 0, 1, 0, 0, 0, 2, 0, 200, 31],
    ),
    (8, &[224, 31, 24, 0, 200, 31, 24]),
    (
        8105,
        &[
            2, 0, 24, 0, 0, 0, 2, 0, 1, 0, 0, 0, 8, 0, 0, 0, 251, 255, 255, 255, 6, 0, 0, 0, 2, 0,
            24, 0, 0, 0, 1, 0, 1, 0, 0, 0, 8, 0, 0, 0, 3, 0, 0, 0, 4,
        ],
    ),
    (11, &[83, 80, 71, 88, 1, 0, 3, 1, 2, 0, 0, 0, 1, 0, 232, 31]),
    (8, &[232, 31, 16]),
    (8141, &[2, 0, 16, 0, 0, 0, 3, 0, 1]),
    (15, &[]),
];

/// Puts so many zeros behind, then these bytes.
fn push_run(bytes: &mut Vec<u8>, zeros: u32, run: &[u8]) -> Result<(), AllocError> {
    for _ in 0..zeros {
        bytes.push(0)?;
    }
    bytes.extend_from_slice(run)
}

/// Bytes that these runs make.
fn bytes_of(alloc: Global, runs: &[Run]) -> Result<Vec<u8>, AllocError> {
    let mut bytes = Vec::new(alloc);
    for (zeros, run) in runs {
        push_run(&mut bytes, *zeros, run)?;
    }
    Ok(bytes)
}

/// What is inserted, with rows 1.1, 1.2 and so on.
#[derive(Clone, Copy)]
enum Rows {
    /// Two points and a null.
    Three,
    /// So many points on a line.
    Line(u16),
    /// So many nulls.
    Nulls(u16),
}

impl Rows {
    fn count(self) -> u16 {
        match self {
            Rows::Three => 3,
            Rows::Line(count) | Rows::Nulls(count) => count,
        }
    }

    fn key(self, number: u16) -> Option<Point> {
        match (self, number) {
            (Rows::Three, 1) => Some(Point { x: 3, y: 4 }),
            (Rows::Three, 2) => Some(Point { x: -5, y: 6 }),
            (Rows::Line(_), _) => Some(Point {
                x: i32::from(number),
                y: 0,
            }),
            _ => None,
        }
    }
}

fn fill(index: &mut Index<Quad>, rows: Rows) -> Result<(), Memory> {
    for number in 1..=rows.count() {
        if index.insert(Row::at(1, number), rows.key(number)).is_err() {
            return Err(Memory);
        }
    }
    Ok(())
}

/// What a save of an index of these rows answers.
fn saved(
    alloc: Global,
    rows: Rows,
    images: &mut FaultyImages,
) -> Result<Result<u32, SaveRefused>, Memory> {
    let mut index = Index::new(alloc, Quad, 65536)?;
    let filled = fill(&mut index, rows);
    let saved = save(index.state(), images, "town");
    mem::forget(index);
    match filled {
        Ok(()) => Ok(saved),
        Err(memory) => Err(memory),
    }
}

/// Puts bytes under a name.
fn put(alloc: Global, images: &mut FaultyImages, name: &str, bytes: &[u8]) -> Result<(), Memory> {
    images.set(name, Bytes::copy(alloc, bytes)?)
}

/// Images whose call of this number fails.
fn failing(alloc: Global, call: u64) -> Result<FaultyImages, Memory> {
    let mut fails = List::new(alloc);
    fails.push(call)?;
    Ok(FaultyImages::new(alloc, fails))
}

/// The same, where other bytes stand.
fn images(alloc: Global, call: u64, town: &[u8]) -> Result<FaultyImages, Memory> {
    let mut images = failing(alloc, call)?;
    put(alloc, &mut images, "other", b"abc")?;
    put(alloc, &mut images, "town", town)?;
    Ok(images)
}

/// Whether three rows stand under the name, and nothing else has changed.
fn has_three_rows(alloc: Global, images: &FaultyImages) -> Result<bool, Memory> {
    let wanted = bytes_of(alloc, &THREE_ROWS)?;
    let same = images.bytes("town") == Some(wanted.as_slice());
    Ok(same && images.bytes("other") == Some(b"abc".as_slice()))
}

/// Whether a save of three rows puts these in place of what stood there.
fn puts_three_rows(alloc: Global) -> Result<bool, Memory> {
    let mut images = images(alloc, 0, &[9; 30000])?;
    let came = saved(alloc, Rows::Three, &mut images)?;
    Ok(has_three_rows(alloc, &images)? && came == Ok(3))
}

#[test]
fn saves_three_rows(rt: HostRuntime) -> Result<(), Fail> {
    assert!(rt; puts_three_rows(rt.alloc())?);
    Ok(())
}

/// What stands under the name after a save of three rows of which the call of this number fails: 2 bytes stood
/// there before.
const FAILING: [(u64, Result<u32, SaveRefused>, usize); 5] = [
    (1, Err(SaveRefused::ImageFault), 2),
    (2, Err(SaveRefused::ImageFault), 0),
    (3, Err(SaveRefused::ImageFault), 8192),
    (4, Err(SaveRefused::ImageFault), 16384),
    (5, Ok(3), 24576),
];

/// What a save of which the call of this number fails answers, and how many bytes it leaves.
fn left(alloc: Global, call: u64) -> Result<(Result<u32, SaveRefused>, Option<usize>), Memory> {
    let mut images = images(alloc, call, b"ab")?;
    let came = saved(alloc, Rows::Three, &mut images)?;
    let bytes = images.bytes("town").map(|bytes| bytes.len());
    Ok((came, bytes))
}

#[test]
fn stops_at_a_failing_call(rt: HostRuntime) -> Result<(), Fail> {
    for (call, wanted, length) in &FAILING {
        assert!(rt; left(rt.alloc(), *call)? == (*wanted, Some(*length)));
    }
    Ok(())
}

/// The first 16 bytes of each page of 400 points on a line.
const LINE_HEADS: [[u8; 16]; 6] = [
    [83, 80, 71, 88, 1, 0, 1, 0, 0, 0, 0, 0, 0, 0, 248, 31],
    [83, 80, 71, 88, 1, 0, 2, 0, 1, 0, 0, 0, 1, 0, 200, 31],
    [83, 80, 71, 88, 1, 0, 3, 1, 2, 0, 0, 0, 0, 0, 248, 31],
    [83, 80, 71, 88, 1, 0, 3, 0, 3, 0, 0, 0, 35, 1, 208, 5],
    [83, 80, 71, 88, 1, 0, 3, 0, 4, 0, 0, 0, 145, 0, 96, 18],
    [83, 80, 71, 88, 1, 0, 2, 0, 5, 0, 0, 0, 2, 0, 152, 31],
];

/// Bytes 24 to 72 of its meta page.
const LINE_META: [u8; 49] = [
    1, 0, 0, 0, 6, 0, 0, 0, 2, 0, 0, 0, 0, 0, 0, 0, 4, 0, 0, 0, 0, 0, 0, 0, 0, 0, 0, 0, 5, 0, 0, 0,
    0, 0, 0, 0, 0, 0, 0, 0, 0, 0, 0, 0, 0, 0, 0, 0, 0,
];

/// The same of 420 nulls.
const NULLS_HEADS: [[u8; 16]; 5] = [
    [83, 80, 71, 88, 1, 0, 1, 0, 0, 0, 0, 0, 0, 0, 248, 31],
    [83, 80, 71, 88, 1, 0, 3, 0, 1, 0, 0, 0, 0, 0, 248, 31],
    [83, 80, 71, 88, 1, 0, 2, 1, 2, 0, 0, 0, 1, 0, 176, 31],
    [83, 80, 71, 88, 1, 0, 3, 1, 3, 0, 0, 0, 152, 1, 120, 6],
    [83, 80, 71, 88, 1, 0, 3, 1, 4, 0, 0, 0, 53, 0, 168, 28],
];

const NULLS_META: [u8; 49] = [
    1, 0, 0, 0, 5, 0, 0, 0, 1, 0, 0, 0, 0, 0, 0, 0, 0, 0, 0, 0, 0, 0, 0, 0, 0, 0, 0, 0, 0, 0, 0, 0,
    4, 0, 0, 0, 0, 0, 0, 0, 0, 0, 0, 0, 0, 0, 0, 0, 4,
];

/// Whether an image has these pages, by their heads, and this meta page.
fn is_image(bytes: &[u8], heads: &[[u8; 16]], meta: &[u8; 49]) -> bool {
    let mut same = bytes.len() / 8192 == heads.len() && bytes.get(24..73) == Some(meta.as_slice());
    for (page, head) in bytes.chunks(8192).zip(heads.iter()) {
        same = same && page.starts_with(head.as_slice());
    }
    same
}

/// Whether the image of an index of these rows has these pages and this meta page.
fn has_image(
    alloc: Global,
    rows: Rows,
    heads: &[[u8; 16]],
    meta: &[u8; 49],
) -> Result<bool, Memory> {
    let mut images = images(alloc, 0, b"")?;
    let saved = saved(alloc, rows, &mut images)?;
    let bytes = images.bytes("town").unwrap_or(b"");
    Ok(saved.is_ok() && is_image(bytes, heads, meta))
}

#[test]
fn saves_larger_indexes(rt: HostRuntime) -> Result<(), Fail> {
    assert!(rt; has_image(rt.alloc(), Rows::Line(400), &LINE_HEADS, &LINE_META)?);
    assert!(rt; has_image(rt.alloc(), Rows::Nulls(420), &NULLS_HEADS, &NULLS_META)?);
    Ok(())
}
