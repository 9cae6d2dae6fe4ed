use crate::program::{Fails, ends, joined, no_fails, ran};
use spg_app::Status;
use spg_base::Memory;
use std::sync::Wait;
use std::test::Fail;
use std::thread::Threads;

/// Words of `gen`, and the summary: rows added, live, of the first and of the second query, swept.
const LOADS: [(&[&str], &[&str]); 5] = [
    (
        &["gen", "3000", "7", "--lanes", "4"],
        &[
            "added 3000",
            "live 2000",
            "first 200",
            "second 1000",
            "swept 1000",
        ],
    ),
    (
        &["gen", "--class", "kd", "100", "--lanes=1", "999999"],
        &["added 100", "live 67", "first 4", "second 36", "swept 33"],
    ),
    (
        &["gen", "300", "9", "--class=radix"],
        &[
            "added 300",
            "live 200",
            "first 22",
            "second 90",
            "swept 100",
        ],
    ),
    (
        &["gen", "--lanes=16", "300", "--class=radix", "9"],
        &[
            "added 300",
            "live 200",
            "first 22",
            "second 90",
            "swept 100",
        ],
    ),
    (
        &["gen", "1", "0"],
        &["added 1", "live 1", "first 1", "second 1", "swept 0"],
    ),
];

/// Whether a load tells these lines.
fn tells<R: AllocGlobal + Threads + Wait + Sync>(
    rt: &R,
    words: &[&str],
    lines: &[&str],
) -> Result<bool, Memory> {
    let summary = joined(rt.alloc(), lines)?;
    let wanted = (Status::Done, summary.as_bytes());
    ends(rt, words, b"no script", no_fails(), wanted)
}

#[test]
fn tells_of_generated_loads(rt: HostRuntime) -> Result<(), Fail> {
    for (words, lines) in &LOADS {
        assert!(rt; tells(&rt, words, lines)?);
    }
    Ok(())
}

/// How a small load ends of which these calls fail.
fn status<R: AllocGlobal + Threads + Wait + Sync>(rt: &R, fails: Fails) -> Result<Status, Memory> {
    let ended = ran(rt, &["gen", "1", "0"], b"", fails)?;
    Ok(ended.status)
}

#[test]
fn reads_nothing_for_a_load(rt: HostRuntime) -> Result<(), Fail> {
    let fails = Fails {
        read: 1,
        ..no_fails()
    };
    assert!(rt; status(&rt, fails)? == Status::Done);
    Ok(())
}

#[test]
fn tells_where_writing_failed(rt: HostRuntime) -> Result<(), Fail> {
    let fails = Fails {
        write: 3,
        ..no_fails()
    };
    let wanted = (Status::WriteFault, b"added 1\nlive 1\n".as_slice());
    assert!(rt; ends(&rt, &["gen", "1", "0"], b"", fails, wanted)?);
    Ok(())
}
