use crate::faults::town_images;
use spg_app::{Status, last_words};
use spg_base::{Bytes, List, Memory};
use spg_io::FaultyImages;
use spg_test_program::{Fails, Open, no_fails, ran_over};
use std::alloc::Global;
use std::sync::Wait;
use std::test::Fail;
use std::thread::Threads;

/// The line on standard error: its words, the block and the clause; and what is written.
type Told = (&'static str, Option<u32>, &'static str, &'static str);

const SOUND: Told = ("", None, "", "ok pages 3 entries 3\n");

const CUT_OFF: Told = ("bad image", Some(0), "length", "");

/// The bytes of a page.
const PAGE: usize = 8192;

/// Bytes of an image: their block, where they begin on its page, and they themselves.
type Run = (usize, usize, &'static [u8]);

/// An image of four pages, clock 1: the meta page, the root of the nulls tree, and the heads of the main
/// root and of block 3, a leaf page with one tuple.
const FOUR: [Run; 10] = [
    (0, 0, &[83, 80, 71, 88, 1, 0, 1]),
    (0, 14, &[248, 31]),
    (0, 24, &[1]),
    (0, 28, &[4]),
    (0, 32, &[1]),
    (1, 0, &[83, 80, 71, 88, 1, 0, 3, 0, 1]),
    (1, 14, &[248, 31]),
    (2, 0, &[83, 80, 71, 88, 1, 0, 3, 1, 2]),
    (2, 14, &[248, 31]),
    (3, 0, &[83, 80, 71, 88, 1, 0, 3, 0, 3, 0, 0, 0, 1]),
];

/// Block 3 has a redirect to itself.
const TO_ITSELF: [Run; 3] = [
    (3, 14, &[232, 31]),
    (3, 24, &[232, 31, 16]),
    (3, 8168, &[4, 0, 16, 0, 3, 0, 0, 0, 1]),
];

/// Two nodes of the root lead to the leaf at 3, 1, of row 1.1 with 1,1.
const TWICE: [Run; 8] = [
    (1, 6, &[2]),
    (1, 12, &[1, 0, 200, 31]),
    (1, 24, &[200, 31, 48]),
    (1, 8136, &[1, 0, 48, 0, 8, 0, 4]),
    (1, 8152, &[3, 0, 0, 0, 1, 0, 0, 0, 3, 0, 0, 0, 1]),
    (3, 14, &[224, 31]),
    (3, 24, &[224, 31, 24]),
    (
        3,
        8160,
        &[
            2, 0, 24, 0, 0, 0, 1, 0, 1, 0, 0, 0, 8, 0, 0, 0, 1, 0, 0, 0, 1,
        ],
    ),
];

const ILL: [(&[Run], Told); 2] = [
    (&TO_ITSELF, ("bad image", Some(3), "redirect", "")),
    (&TWICE, ("bad image", Some(3), "count", "")),
];

/// Puts runs of bytes into an image, where they lie inside.
fn put(image: &mut [u8; 4 * PAGE], runs: &[Run]) {
    for (block, at, bytes) in runs {
        let from = PAGE.saturating_mul(*block).saturating_add(*at);
        if from <= image.len() && bytes.len() <= image.len() - from {
            image[from..from + bytes.len()].copy_from_slice(bytes);
        }
    }
}

/// The image of four pages with these runs.
fn image_of(alloc: Global, runs: &[Run]) -> Result<Bytes, Memory> {
    let mut image = [0; 4 * PAGE];
    put(&mut image, &FOUR);
    put(&mut image, runs);
    Bytes::copy(alloc, &image)
}

/// Whether that is the line on standard error.
fn is_last(status: Status, told: Told) -> bool {
    let last = last_words(status, Ok(()));
    let (words, block, reason, _) = told;
    (last.words, last.number, last.reason) == (words, block, reason)
}

/// Whether a check of the image of a name tells this.
fn is_told<R: AllocGlobal + Threads + Wait + Sync>(
    rt: &R,
    images: &mut FaultyImages,
    name: &str,
    told: Told,
) -> Result<bool, Memory> {
    let (status, text) = ran_over(rt, &["check", name], b"", no_fails(), images, &Open)?;
    Ok(is_last(status, told) && text.as_slice() == told.3.as_bytes())
}

/// A copy of the image without its last byte.
fn shorter(alloc: Global, images: &FaultyImages) -> Result<Bytes, Memory> {
    match images.bytes("town") {
        Some([front @ .., _]) => Bytes::copy(alloc, front),
        _ => Ok(Bytes::new(alloc)),
    }
}

/// Puts that under another name.
fn cut_off(alloc: Global, images: &mut FaultyImages) -> Result<(), Memory> {
    let cut = shorter(alloc, images)?;
    images.set("cut", cut)
}

/// Whether each of these names is told so, the image of one of which is cut off.
fn are_told<R: AllocGlobal + Threads + Wait + Sync>(
    rt: &R,
    images: &mut FaultyImages,
) -> Result<bool, Memory> {
    let missing = ("bad image", Some(0), "missing", "");
    cut_off(rt.alloc(), images)?;
    for (name, told) in [("town", SOUND), ("cut", CUT_OFF), ("ely", missing)] {
        if !is_told(rt, images, name, told)? {
            return Ok(false);
        }
    }
    Ok(true)
}

#[test]
fn checks_a_town(rt: HostRuntime) -> Result<(), Fail> {
    let mut images = town_images(&rt, no_fails())?;
    assert!(rt; are_told(&rt, &mut images)?);
    Ok(())
}

/// The images fail at the second put.
#[test]
fn checks_what_a_fault_left(rt: HostRuntime) -> Result<(), Fail> {
    let fails = Fails {
        image: 3,
        ..no_fails()
    };
    let mut images = town_images(&rt, fails)?;
    assert!(rt; is_told(&rt, &mut images, "town", CUT_OFF)?);
    Ok(())
}

/// Whether a check of an image of these runs tells that.
fn is_ill<R: AllocGlobal + Threads + Wait + Sync>(
    rt: &R,
    runs: &[Run],
    told: Told,
) -> Result<bool, Memory> {
    let image = image_of(rt.alloc(), runs)?;
    let mut images = FaultyImages::new(rt.alloc(), List::new(rt.alloc()));
    images.set("town", image)?;
    is_told(rt, &mut images, "town", told)
}

#[test]
fn checks_ill_images(rt: HostRuntime) -> Result<(), Fail> {
    for (runs, told) in &ILL {
        assert!(rt; is_ill(&rt, runs, *told)?);
    }
    Ok(())
}
