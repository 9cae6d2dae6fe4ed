use spg_app::Status;
use spg_base::Memory;
use spg_io::FaultyImages;
use spg_test_program::{Ended, Fails, ends, no_fails, ran, run_word};
use std::alloc::{AllocError, Global};
use std::sync::Wait;
use std::test::Fail;
use std::thread::Threads;

/// A town: houses of which one is pulled down, its entry swept, and the pages saved.
const TOWN: &[u8] =
    b"class radix\ninsert 0.1 \"12 High Street, Oxford\"\ninsert 0.2 \"14 High Street, Oxford\"\ninsert 0.3 \"3 Mill Lane, Ely\"\ninsert 0.4 null\nfind where starts \"1\"\ndelete 0.2\nfind where starts \"1\"\nvacuum\nfind all\nsave town\n";

/// The text of its run up to the result of `save`.
const BEFORE: &[u8] =
    b"1 0 2 added\n2 2 4 added\n3 4 6 added\n4 6 8 added\n5 8 10 found 2 walk 3 0.1 0.2\n6 10 11 killed\n7 11 13 found 1 walk 3 0.1\n8 13 16 vacuumed 1\n9 16 18 found 3 walk 3 0.1 0.3 0.4\n";

/// The result of `save`, and where the images fail.
const SAVED: &[u8] = b"10 18 18 saved 3\n";

const FAULT: &[u8] = b"10 18 18 image fault\n";

/// The text of its run behind the result of `save`.
const BEHIND: &[u8] =
    b"journal 18\n0 0 open insert 0.1 \"12 High Street, Oxford\"\n1 0 put 0.1\n2 0 open insert 0.2 \"14 High Street, Oxford\"\n3 0 put 0.2\n4 0 open insert 0.3 \"3 Mill Lane, Ely\"\n5 0 put 0.3\n6 0 open insert 0.4 null\n7 0 put 0.4\n8 0 open scan where starts \"1\"\n9 0 close scan 2\n10 0 kill 0.2\n11 0 open scan where starts \"1\"\n12 0 close scan 1\n13 0 open vacuum\n14 0 sweep 0.2\n15 0 close vacuum 1\n16 0 open scan all\n17 0 close scan 3\n";

fn town<R: AllocGlobal + Threads + Wait + Sync>(rt: &R, fails: Fails) -> Result<Ended, Memory> {
    ran(rt, &run_word(), TOWN, fails)
}

/// The images after a town's run of which these calls fail.
pub(crate) fn town_images<R: AllocGlobal + Threads + Wait + Sync>(
    rt: &R,
    fails: Fails,
) -> Result<FaultyImages, Memory> {
    let Ended { images, .. } = town(rt, fails)?;
    Ok(images)
}

/// The text of the town's run with this result of `save`.
fn text(alloc: Global, saved: &[u8]) -> Result<Vec<u8>, AllocError> {
    let mut text = BEFORE.to_vec(alloc)?;
    text.extend_from_slice(saved)?;
    text.extend_from_slice(BEHIND)?;
    Ok(text)
}

/// Whether a town's run of which these calls fail ends so, and has saved so many bytes, if any.
fn ends_so<R: AllocGlobal + Threads + Wait + Sync>(
    rt: &R,
    fails: Fails,
    wanted: (Status, &[u8]),
    length: Option<usize>,
) -> Result<bool, Memory> {
    let ended = town(rt, fails)?;
    let saved = ended.images.bytes("town").map(|image| image.len());
    Ok((ended.status, ended.text.as_slice()) == wanted && saved == length)
}

/// The same, where the text has this result of `save`.
fn saves_so<R: AllocGlobal + Threads + Wait + Sync>(
    rt: &R,
    fails: Fails,
    status: Status,
    saved: &[u8],
    length: Option<usize>,
) -> Result<bool, Memory> {
    let text = text(rt.alloc(), saved)?;
    ends_so(rt, fails, (status, text.as_slice()), length)
}

#[test]
fn saves_a_town(rt: HostRuntime) -> Result<(), Fail> {
    assert!(rt; saves_so(&rt, no_fails(), Status::Done, SAVED, Some(24576))?);
    Ok(())
}

/// Each failing write, and how many bytes the lines before it have.
const WRITES: [(u64, usize); 6] = [(1, 0), (2, 12), (3, 24), (4, 36), (5, 48), (6, 78)];

#[test]
fn tells_failing_writes(rt: HostRuntime) -> Result<(), Fail> {
    for (call, length) in WRITES {
        let fails = Fails {
            write: call,
            ..no_fails()
        };
        let wanted = (Status::WriteFault, &BEFORE[..length]);
        assert!(rt; ends(&rt, &run_word(), TOWN, fails, wanted)?);
    }
    Ok(())
}

/// Each failing call of the images, `clear` before the puts, and the bytes that were saved before.
const PUTS: [(u64, Option<usize>); 4] = [
    (1, None),
    (2, Some(0)),
    (3, Some(8192)),
    (4, Some(16384)),
];

#[test]
fn tells_failing_images(rt: HostRuntime) -> Result<(), Fail> {
    for (call, length) in PUTS {
        let fails = Fails {
            image: call,
            ..no_fails()
        };
        assert!(rt; saves_so(&rt, fails, Status::ImageFault, FAULT, length)?);
    }
    Ok(())
}

#[test]
fn tells_failing_reads(rt: HostRuntime) -> Result<(), Fail> {
    for call in 1..5 {
        let fails = Fails {
            read: call,
            ..no_fails()
        };
        assert!(rt; ends_so(&rt, fails, (Status::ReadFault, b""), None)?);
    }
    Ok(())
}
