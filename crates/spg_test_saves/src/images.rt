use spg_base::{List, Memory};
use spg_io::FaultyImages;
use spg_test_program::{Open, joined, no_fails, ran_over};
use std::sync::Wait;
use std::test::Fail;
use std::thread::Threads;

/// What is asked over the same images: the words, the lines of the script, the code of the status, and
/// the lines of the text.
pub(crate) type Asked = (
    &'static [&'static str],
    &'static [&'static str],
    u8,
    &'static [&'static str],
);

/// A town that is saved in one run and gone on from in the next ones.
const TOWN: [Asked; 7] = [
    (&["check", "town"], &[], 7, &[]),
    (
        &["run"],
        &[
            "class radix",
            "insert 0.1 \"12 High Street, Oxford\"",
            "insert 0.2 null",
            "save town",
        ],
        0,
        &[
            "1 0 2 added",
            "2 2 4 added",
            "3 4 4 saved 3",
            "journal 4",
            "0 0 open insert 0.1 \"12 High Street, Oxford\"",
            "1 0 put 0.1",
            "2 0 open insert 0.2 null",
            "3 0 put 0.2",
        ],
    ),
    (&["check", "town"], &[], 0, &["ok pages 3 entries 2"]),
    (
        &["run", "--from", "town"],
        &[
            "class radix",
            "find all",
            "delete 0.1",
            "vacuum",
            "insert 0.3 \"3 Mill Lane, Ely\"",
            "save town",
        ],
        0,
        &[
            "1 4 6 found 2 walk 2 0.1 0.2",
            "2 6 7 killed",
            "3 7 10 vacuumed 1",
            "4 10 12 added",
            "5 12 12 saved 3",
            "journal 12",
            "0 0 open insert 0.1 \"12 High Street, Oxford\"",
            "1 0 put 0.1",
            "2 0 open insert 0.2 null",
            "3 0 put 0.2",
            "4 0 open scan all",
            "5 0 close scan 2",
            "6 0 kill 0.1",
            "7 0 open vacuum",
            "8 0 sweep 0.1",
            "9 0 close vacuum 1",
            "10 0 open insert 0.3 \"3 Mill Lane, Ely\"",
            "11 0 put 0.3",
        ],
    ),
    (&["check", "town"], &[], 0, &["ok pages 3 entries 2"]),
    (
        &["run", "--from=town", "--limit", "4"],
        &["class quad", "find all"],
        7,
        &[],
    ),
    (
        &["run", "--limit=4", "--from=town"],
        &["class radix", "stat"],
        0,
        &[
            "1 4 4 stat pages 3 inner 0 leaf 2 redirect 0 dead 0 placeholder 0 clock 0",
            "journal 4",
            "0 0 open insert 0.3 \"3 Mill Lane, Ely\"",
            "1 0 put 0.3",
            "2 0 open insert 0.2 null",
            "3 0 put 0.2",
        ],
    ),
];

/// Whether what is asked over these images is answered so.
fn asks<R: AllocGlobal + Threads + Wait + Sync>(
    rt: &R,
    images: &mut FaultyImages,
    asked: &Asked,
) -> Result<bool, Memory> {
    let (words, script, code, text) = *asked;
    let script = joined(rt.alloc(), script)?;
    let text = joined(rt.alloc(), text)?;
    let (status, wrote) = ran_over(rt, words, script.as_bytes(), no_fails(), images, &Open)?;
    Ok((status.code(), wrote.as_slice()) == (code, text.as_bytes()))
}

/// Whether all that is asked over the same images, one after another, is answered so.
pub(crate) fn all_asked<R: AllocGlobal + Threads + Wait + Sync>(
    rt: &R,
    all: &[Asked],
) -> Result<bool, Memory> {
    let mut images = FaultyImages::new(rt.alloc(), List::new(rt.alloc()));
    for asked in all {
        if !asks(rt, &mut images, asked)? {
            return Ok(false);
        }
    }
    Ok(true)
}

#[test]
fn goes_on_from_a_town(rt: HostRuntime) -> Result<(), Fail> {
    assert!(rt; all_asked(&rt, &TOWN)?);
    Ok(())
}
