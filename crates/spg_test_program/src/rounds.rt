use crate::program::{done, is_line, push_insert, push_numbered, run_word};
use spg_base::Memory;
use std::alloc::{AllocError, Global};
use std::sync::Wait;
use std::test::Fail;
use std::thread::Threads;

/// How many rows each round has.
const ROWS: u32 = 450;

/// A class, the keys of rows 1.1, 1.2 and so on, where `N` stands for the offset, and the counts after
/// each round.
const ROUNDS: [(&str, &str, &str); 5] = [
    (
        "quad",
        "N,0",
        "pages 6 inner 4 leaf 0 redirect 0 dead 5 placeholder 287 clock 3",
    ),
    (
        "quad",
        "0,0",
        "pages 5 inner 1 leaf 0 redirect 0 dead 8 placeholder 349 clock 3",
    ),
    (
        "quad",
        "null",
        "pages 5 inner 1 leaf 0 redirect 0 dead 8 placeholder 351 clock 1",
    ),
    (
        "kd",
        "N,5",
        "pages 6 inner 2 leaf 0 redirect 0 dead 3 placeholder 146 clock 1",
    ),
    (
        "radix",
        "\"N Mill Lane\"",
        "pages 6 inner 1 leaf 0 redirect 0 dead 9 placeholder 320 clock 3",
    ),
];

/// Puts all rows in, deletes them and sweeps them.
fn push_round(alloc: Global, script: &mut String, key: &str) -> Result<(), AllocError> {
    for number in 1..=ROWS {
        push_insert(alloc, script, key, number)?;
    }
    for number in 1..=ROWS {
        push_numbered(alloc, script, "delete 1.N\n", number)?;
    }
    script.push_str("vacuum\nstat\n")
}

fn three_rounds(alloc: Global, class: &str, key: &str) -> Result<String, AllocError> {
    let mut script = format!(in alloc; "class {class}\n")?;
    for _ in 0..3 {
        push_round(alloc, &mut script, key)?;
    }
    Ok(script)
}

/// The results of the vacuums and of the counts that follow, each with its place in the text, counted
/// from 0.
const VACUUMED: [(usize, &str, usize, &str); 3] = [
    (
        900,
        "901 1350 1802 vacuumed 450",
        901,
        "902 1802 1802 stat ",
    ),
    (
        1802,
        "1803 3152 3604 vacuumed 450",
        1803,
        "1804 3604 3604 stat ",
    ),
    (
        2704,
        "2705 4954 5406 vacuumed 450",
        2705,
        "2706 5406 5406 stat ",
    ),
];

/// Whether a line has these counts behind its start.
fn counts_so(
    alloc: Global,
    text: &[u8],
    number: usize,
    start: &str,
    counts: &str,
) -> Result<bool, AllocError> {
    let line = format!(in alloc; "{start}{counts}")?;
    Ok(is_line(text, number, line.as_str()))
}

/// Whether the vacuums and counts of a run have these results.
fn are_rounds(alloc: Global, text: &[u8], counts: &str) -> Result<bool, AllocError> {
    for (place, vacuumed, next, start) in &VACUUMED {
        let counted = counts_so(alloc, text, *next, start, counts)?;
        if !counted || !is_line(text, *place, vacuumed) {
            return Ok(false);
        }
    }
    Ok(true)
}

/// Whether a run of three rounds comes to its end with these counts after each.
fn goes_round<R: AllocGlobal + Threads + Wait + Sync>(
    rt: &R,
    class: &str,
    key: &str,
    counts: &str,
) -> Result<bool, Memory> {
    let script = three_rounds(rt.alloc(), class, key)?;
    match done(rt, &run_word(), script.as_str())? {
        Some(text) => Ok(are_rounds(rt.alloc(), text.as_slice(), counts)?),
        None => Ok(false),
    }
}

#[test]
fn sweeps_rounds_of_rows_and_takes_their_room_again(rt: HostRuntime) -> Result<(), Fail> {
    for (class, key, counts) in &ROUNDS {
        assert!(rt; goes_round(&rt, class, key, counts)?);
    }
    Ok(())
}
