use spg_app::Status;
use spg_base::Memory;
use spg_test_program::{are_lines, done, ends, no_fails, push_insert, push_numbered, run_word};
use std::alloc::{AllocError, Global};
use std::sync::Wait;
use std::test::Fail;
use std::thread::Threads;

/// Adds so many bytes of a kind.
pub(crate) fn push_many(script: &mut String, byte: &str, count: usize) -> Result<(), AllocError> {
    for _ in 0..count {
        script.push_str(byte)?;
    }
    Ok(())
}

/// Puts the insert of a text of `a` of so many bytes.
fn push_text(
    alloc: Global,
    script: &mut String,
    number: u32,
    length: usize,
) -> Result<(), AllocError> {
    push_numbered(alloc, script, "insert 1.N \"", number)?;
    push_many(script, "a", length)?;
    script.push_str("\"\n")
}

/// Three texts of `a`, the second of so many bytes, the others of 3,900.
fn long_texts(alloc: Global, second: usize) -> Result<String, AllocError> {
    let mut script = String::from_str(alloc, "class radix\n")?;
    for (number, length) in [(1, 3900), (2, second), (3, 3900)] {
        push_text(alloc, &mut script, number, length)?;
    }
    script.push_str("find all\nstat\n")?;
    Ok(script)
}

/// The last results of the run of three texts of 3,900 bytes.
const LONGEST: [&str; 2] = [
    "4 6 8 found 3 walk 4 1.1 1.2 1.3",
    "5 8 8 stat pages 4 inner 1 leaf 3 redirect 0 dead 0 placeholder 0 clock 0",
];

/// Whether a run of a script comes to its end with these lines from a number on.
fn has_lines<R: AllocGlobal + Threads + Wait + Sync>(
    rt: &R,
    script: &str,
    first: usize,
    lines: &[&str],
) -> Result<bool, Memory> {
    match done(rt, &run_word(), script)? {
        Some(text) => Ok(are_lines(text.as_slice(), first, lines)),
        None => Ok(false),
    }
}

#[test]
fn takes_texts_of_3900_bytes(rt: HostRuntime) -> Result<(), Fail> {
    let script = long_texts(rt.alloc(), 3900)?;
    assert!(rt; has_lines(&rt, script.as_str(), 3, &LONGEST)?);
    Ok(())
}

#[test]
fn refuses_texts_of_more(rt: HostRuntime) -> Result<(), Fail> {
    let script = long_texts(rt.alloc(), 3901)?;
    let wanted = (Status::BadScript(3), b"".as_slice());
    assert!(rt; ends(&rt, &run_word(), script.as_bytes(), no_fails(), wanted)?);
    Ok(())
}

/// Keys of `b` and so many times `z` that come where a dead tuple stands on a page with little room,
/// and the lines from the insert of that tuple on: the short one takes its place, the long one goes to
/// another page.
const COMERS: [(usize, &[&str]); 2] = [
    (
        0,
        &[
            "293 584 586 added",
            "294 586 587 killed",
            "295 587 590 vacuumed 1",
            "296 590 590 stat pages 6 inner 2 leaf 292 redirect 0 dead 1 placeholder 0 clock 0",
            "297 590 592 added",
            "298 592 592 stat pages 6 inner 2 leaf 293 redirect 0 dead 0 placeholder 0 clock 0",
        ],
    ),
    (
        2999,
        &[
            "293 584 586 added",
            "294 586 587 killed",
            "295 587 590 vacuumed 1",
            "296 590 590 stat pages 6 inner 2 leaf 292 redirect 0 dead 1 placeholder 0 clock 0",
            "297 590 592 added",
            "298 592 592 stat pages 6 inner 2 leaf 293 redirect 1 dead 0 placeholder 0 clock 1",
        ],
    ),
];

/// Many texts, then one alone on its chain that is deleted and swept, then the text that comes.
fn with_comer(alloc: Global, length: usize) -> Result<String, AllocError> {
    let mut script = String::from_str(alloc, "class radix\n")?;
    for number in 1..293 {
        push_insert(alloc, &mut script, "\"abc\"", number)?;
    }
    script.push_str("insert 2.1 \"b\"\ndelete 2.1\nvacuum\nstat\ninsert 2.2 \"b")?;
    push_many(&mut script, "z", length)?;
    script.push_str("\"\nstat\n")?;
    Ok(script)
}

/// Whether a text of this length is put so.
fn is_put<R: AllocGlobal + Threads + Wait + Sync>(
    rt: &R,
    length: usize,
    told: &[&str],
) -> Result<bool, Memory> {
    let script = with_comer(rt.alloc(), length)?;
    has_lines(rt, script.as_str(), 292, told)
}

#[test]
fn puts_texts_where_a_dead_tuple_stands(rt: HostRuntime) -> Result<(), Fail> {
    for (length, told) in &COMERS {
        assert!(rt; is_put(&rt, *length, told)?);
    }
    Ok(())
}
