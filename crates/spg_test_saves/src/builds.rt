use crate::images::{Asked, all_asked};
use spg_app::Status;
use spg_base::{List, Memory};
use spg_io::FaultyImages;
use spg_test_program::{Fails, ends, push_insert, writes};
use std::alloc::{AllocError, Global};
use std::sync::Wait;
use std::test::Fail;
use std::thread::Threads;

/// A town that is built, checked and gone on from; then lists that are refused, and other classes.
const TOWN: [Asked; 8] = [
    (
        &["build", "town"],
        &[
            "# A row that comes twice.",
            "class radix",
            "insert 0.1 \"12 High Street, Oxford\"",
            "",
            "insert 0.2 null",
            "insert 0.1 \"3 Mill Lane, Ely\"",
        ],
        0,
        &["built 2 skipped 1 pages 3"],
    ),
    (&["check", "town"], &[], 0, &["ok pages 3 entries 2"]),
    (
        &["run", "--from", "town"],
        &["class radix", "find where starts \"12\""],
        0,
        &[
            "1 4 6 found 1 walk 1 0.1",
            "journal 6",
            "0 0 open insert 0.1 \"12 High Street, Oxford\"",
            "1 0 put 0.1",
            "2 0 open insert 0.2 null",
            "3 0 put 0.2",
            "4 0 open scan where starts \"12\"",
            "5 0 close scan 1",
        ],
    ),
    (
        &["build", "town"],
        &["class quad", "insert 1.1 3,4", "delete 1.1"],
        3,
        &[],
    ),
    (&["build", "town"], &["insert 1.1 3,4"], 3, &[]),
    (&["check", "town"], &[], 0, &["ok pages 3 entries 2"]),
    (
        &["build", "--workers", "1", "town"],
        &["class kd", "insert 1.1 3,4"],
        0,
        &["built 1 skipped 0 pages 3"],
    ),
    (
        &["build", "town", "--workers=16"],
        &["class quad"],
        0,
        &["built 0 skipped 0 pages 3"],
    ),
];

#[test]
fn builds_a_town(rt: HostRuntime) -> Result<(), Fail> {
    assert!(rt; all_asked(&rt, &TOWN)?);
    Ok(())
}

/// How many points there are, and what is told of the index that is built of them.
const SIZES: [(u32, &str, &str); 2] = [
    (
        291,
        "built 291 skipped 0 pages 3\n",
        "ok pages 3 entries 291\n",
    ),
    (
        292,
        "built 292 skipped 0 pages 6\n",
        "ok pages 6 entries 292\n",
    ),
];

/// A class line, and rows 1.1, 1.2 and so on with the points 1,0 2,0 and so on.
fn points(alloc: Global, count: u32) -> Result<String, AllocError> {
    let mut script = String::from_str(alloc, "class quad\n")?;
    for number in 1..=count {
        push_insert(alloc, &mut script, "N,0", number)?;
    }
    Ok(script)
}

/// Whether an index of so many points is built and checked with these lines.
fn builds_line<R: AllocGlobal + Threads + Wait + Sync>(
    rt: &R,
    images: &mut FaultyImages,
    size: &(u32, &str, &str),
) -> Result<bool, Memory> {
    let (count, built, checked) = *size;
    let script = points(rt.alloc(), count)?;
    let built = (Status::Done, built.as_bytes());
    let checked = (Status::Done, checked.as_bytes());
    Ok(
        writes(rt, &["build", "line"], script.as_bytes(), images, built)?
            && writes(rt, &["check", "line"], b"", images, checked)?,
    )
}

/// The same for each of the sizes, over the same images.
fn builds_lines<R: AllocGlobal + Threads + Wait + Sync>(rt: &R) -> Result<bool, Memory> {
    let mut images = FaultyImages::new(rt.alloc(), List::new(rt.alloc()));
    for size in &SIZES {
        if !builds_line(rt, &mut images, size)? {
            return Ok(false);
        }
    }
    Ok(true)
}

#[test]
fn builds_one_page_and_more(rt: HostRuntime) -> Result<(), Fail> {
    assert!(rt; builds_lines(&rt)?);
    Ok(())
}

/// The first call that fails of the reads, the writes and those of the images, and how a build ends then.
const FAULTS: [(u64, u64, u64, Status); 5] = [
    (1, 0, 0, Status::ReadFault),
    (0, 1, 0, Status::WriteFault),
    (0, 0, 1, Status::ImageFault),
    (0, 0, 2, Status::ImageFault),
    (0, 0, 4, Status::ImageFault),
];

#[test]
fn tells_failing_builds(rt: HostRuntime) -> Result<(), Fail> {
    let script = b"class quad\ninsert 1.1 3,4\n";
    for (read, write, image, status) in FAULTS {
        let fails = Fails { read, write, image };
        assert!(rt; ends(&rt, &["build", "town"], script, fails, (status, b""))?);
    }
    Ok(())
}
