use crate::lanes::{Lines, assert_counts, push_inserts, push_times, ran_whole};
use crate::long_texts::push_many;
use spg_base::{Bytes, List, Memory};
use spg_io::FaultyImages;
use spg_test_program::{done_over, push_numbered};
use std::alloc::{AllocError, Global};
use std::process::Abort;
use std::sync::Wait;
use std::test::Fail;
use std::thread::Threads;

/// The clock at its end, and where an image has it.
const LAST: [u8; 8] = [255, 255, 255, 255, 255, 255, 0, 0];

const CLOCK: usize = 32;

/// Points that fill the main root to its last byte.
fn full_root(alloc: Global) -> Result<String, AllocError> {
    let mut script = String::from_str(alloc, "class quad\n")?;
    push_inserts(alloc, &mut script, 1, 291)?;
    script.push_str("save town\n")?;
    Ok(script)
}

/// Three lanes. The first inserts more points than the root has room for, and looks. The second puts nulls,
/// whose tree has room and needs no clock; the third vacuums and looks.
fn one_and_two_others(alloc: Global) -> Result<String, AllocError> {
    let mut script = String::from_str(alloc, "class quad\ntogether\nlane\n")?;
    push_inserts(alloc, &mut script, 1, 300)?;
    script.push_str("find all\nlane\n")?;
    for number in 1..=50u32 {
        push_numbered(alloc, &mut script, "insert 2.N null\n", number)?;
    }
    script.push_str("lane\n")?;
    push_times(&mut script, "vacuum\nfind null\n", 10)?;
    script.push_str("end\nfind all\nfind null\nstat\n")?;
    Ok(script)
}

/// What the text has where the index is full, or the clock at its end, from the 292nd point on.
const ENDS: [(Lines, u32); 7] = [
    (Lines::Ending(" vacuumed 0"), 10),
    (Lines::Holding(" 0 drop 1."), 9),
    (Lines::Holding(" 0 open scan all"), 2),
    (Lines::Holding(" found "), 13),
    (Lines::Holding(" found 341 walk 342 "), 1),
    (Lines::Holding(" found 50 walk 50 "), 1),
    (Lines::Ending("journal 746"), 1),
];

const FULL: [(Lines, u32); 3] = [
    (Lines::Ending(" added"), 341),
    (Lines::Ending(" full"), 9),
    (Lines::Ending(" placeholder 0 clock 0"), 1),
];

const LATE: [(Lines, u32); 4] = [
    (Lines::Ending(" row used"), 291),
    (Lines::Ending(" added"), 50),
    (Lines::Ending(" clock full"), 9),
    (Lines::Ending(" clock 281474976710655"), 1),
];

/// Five pages, of which a division of a chain needs more.
#[test]
fn a_lane_that_finds_the_index_full(rt: HostRuntime) -> Result<(), Fail> {
    let script = one_and_two_others(rt.alloc())?;
    let text = ran_whole(&rt, &["run", "--limit", "5"], script.as_str())?;
    assert_counts(&rt, text.as_slice(), &ENDS)?;
    assert_counts(&rt, text.as_slice(), &FULL)
}

/// Puts an image there with its clock at its end.
fn push_late(bytes: &mut Bytes, image: &[u8]) -> Result<(), Memory> {
    for (at, byte) in image.iter().enumerate() {
        let clock = LAST.get(at.wrapping_sub(CLOCK)).copied();
        bytes.push(clock.unwrap_or(*byte))?;
    }
    Ok(())
}

/// An image with its clock at its end.
fn late(alloc: Global, image: Option<&[u8]>) -> Result<Bytes, Memory> {
    let mut bytes = Bytes::new(alloc);
    push_late(&mut bytes, image.unwrap_or(b""))?;
    Ok(bytes)
}

/// Puts a town whose root is full, and whose clock is at its end. False where the run does not come to its end.
fn put_late<R: AllocGlobal + Threads + Wait + Sync>(
    rt: &R,
    images: &mut FaultyImages,
) -> Result<bool, Memory> {
    let script = full_root(rt.alloc())?;
    let is_done = done_over(rt, &["run"], script.as_str(), images)?.is_some();
    let image = late(rt.alloc(), images.bytes("town"))?;
    images.set("town", image)?;
    Ok(is_done)
}

/// What a run from that town prints, if it comes to its end.
fn late_text<R: AllocGlobal + Threads + Wait + Sync>(rt: &R) -> Result<Option<Vec<u8>>, Memory> {
    let mut images = FaultyImages::new(rt.alloc(), List::new(rt.alloc()));
    if !put_late(rt, &mut images)? {
        return Ok(None);
    }
    let script = one_and_two_others(rt.alloc())?;
    done_over(rt, &["run", "--from", "town"], script.as_str(), &mut images)
}

#[test]
fn a_lane_that_finds_the_clock_at_its_end(rt: HostRuntime) -> Result<(), Fail> {
    let text = late_text(&rt)?.unwrap_or(Vec::new(rt.alloc()));
    assert_counts(&rt, text.as_slice(), &ENDS)?;
    assert_counts(&rt, text.as_slice(), &LATE)
}

/// Texts by their first letter, how many `p` follow it, and their last letter. Below the root they come to three
/// inner tuples, which leave 4 bytes of their page.
const TEXTS: [(&str, usize, &str); 12] = [
    ("a", 3300, "x"),
    ("a", 3300, "y"),
    ("b", 3300, "x"),
    ("a", 3300, "z"),
    ("b", 3300, "y"),
    ("b", 3300, "z"),
    ("c", 1410, "u"),
    ("c", 1410, "v"),
    ("c", 1410, "w"),
    ("c", 1410, "x"),
    ("c", 1410, "y"),
    ("c", 1410, "z"),
];

/// An insert of a text.
fn push_text(
    alloc: Global,
    script: &mut String,
    row: u32,
    text: &(&str, usize, &str),
) -> Result<(), AllocError> {
    let (first, count, last) = *text;
    let start = format!(in alloc; "insert 1.{row} \"{first}")?;
    script.push_str(start.as_str())?;
    push_many(script, "p", count)?;
    script.push_str(last)?;
    script.push_str("\"\n")
}

/// The texts, whose state is saved.
fn full_inner_page(alloc: Global) -> Result<String, AllocError> {
    let mut script = String::from_str(alloc, "class radix\n")?;
    for (text, row) in TEXTS.iter().zip(1u32..) {
        push_text(alloc, &mut script, row, text)?;
    }
    script.push_str("save town\n")?;
    Ok(script)
}

/// Two lanes. The first inserts a text for which an inner tuple gets a node more and has to move, and one for which
/// none does; the second puts a null.
fn a_node_and_a_null(alloc: Global) -> Result<String, AllocError> {
    let mut script = String::from_str(alloc, "class radix\ntogether\nlane\n")?;
    push_text(alloc, &mut script, 20, &("a", 3300, "u"))?;
    push_text(alloc, &mut script, 21, &("a", 3300, "x"))?;
    script.push_str("lane\ninsert 2.1 null\nend\nfind all\nstat\n")?;
    Ok(script)
}

/// What comes of these where the tuple cannot move.
const UNMOVED: [(Lines, u32); 5] = [
    (Lines::Ending(" added"), 2),
    (Lines::Ending(" full"), 1),
    (Lines::Holding(" 0 drop 1.20"), 1),
    (Lines::Holding(" found 14 "), 1),
    (
        Lines::Holding(" stat pages 6 inner 4 leaf 14 redirect 3 "),
        1,
    ),
];

/// What a run of the lanes over the saved texts prints, if it comes to its end.
fn unmoved_text<R: AllocGlobal + Threads + Wait + Sync>(
    rt: &R,
    images: &mut FaultyImages,
) -> Result<Option<Vec<u8>>, Memory> {
    let script = a_node_and_a_null(rt.alloc())?;
    let words = ["run", "--from", "town", "--limit", "6"];
    done_over(rt, &words, script.as_str(), images)
}

/// Runs the lanes over the saved texts, where so many inserts find the clock at its end.
fn cannot_move<R: AllocGlobal + Threads + Wait + Sync + Abort>(
    rt: &R,
    images: &mut FaultyImages,
    clock_full: u32,
) -> Result<(), Fail> {
    let text = unmoved_text(rt, images)?.unwrap_or(Vec::new(rt.alloc()));
    assert_counts(rt, text.as_slice(), &UNMOVED)?;
    assert_counts(
        rt,
        text.as_slice(),
        &[(Lines::Ending(" clock full"), clock_full)],
    )
}

/// Saves the texts. False where the run does not come to its end.
fn put_texts<R: AllocGlobal + Threads + Wait + Sync>(
    rt: &R,
    images: &mut FaultyImages,
) -> Result<bool, Memory> {
    let script = full_inner_page(rt.alloc())?;
    Ok(done_over(rt, &["run"], script.as_str(), images)?.is_some())
}

/// Puts the clock of the saved town at its end.
fn make_late(alloc: Global, images: &mut FaultyImages) -> Result<(), Memory> {
    let image = late(alloc, images.bytes("town"))?;
    images.set("town", image)
}

/// The index is full, and then the clock is at its end too, which is found first.
#[test]
fn a_lane_whose_inner_tuple_cannot_move(rt: HostRuntime) -> Result<(), Fail> {
    let mut images = FaultyImages::new(rt.alloc(), List::new(rt.alloc()));
    assert!(rt; put_texts(&rt, &mut images)?);
    cannot_move(&rt, &mut images, 0)?;
    make_late(rt.alloc(), &mut images)?;
    cannot_move(&rt, &mut images, 1)
}
