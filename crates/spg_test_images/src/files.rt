//! Files of a folder: what is read and written there, and texts that are no name.

use crate::calls::{Call, all_answer, answers};
use spg_base::Failed;
use spg_io::{FolderImages, Images, IoRefused};
use std::fs;
use std::test::Fail;

/// A file that the test makes and removes.
const FILE: &str = "spg-test-images";

/// Two pages are put, and the second one is read.
const PUT: [(&str, Call); 8] = [
    (FILE, Call::Clear(Ok(()))),
    (FILE, Call::Put(1, Ok(()))),
    (FILE, Call::Put(2, Ok(()))),
    (FILE, Call::Len(Ok(Some(16384)))),
    (FILE, Call::Get(1, Ok(true))),
    (FILE, Call::Holds(0, 2)),
    (FILE, Call::Holds(8191, 2)),
    (FILE, Call::Get(2, Ok(false))),
];

/// The file is removed then.
const GONE: [(&str, Call); 2] = [(FILE, Call::Len(Ok(None))), (FILE, Call::Get(0, Ok(false)))];

#[test]
fn keeps_images_as_files(rt: HostRuntime) -> Result<(), Fail> {
    let mut images = FolderImages::new(&rt);
    assert!(rt; all_answer(&mut images, &PUT));
    fs::remove_file(&rt, FILE)?;
    assert!(rt; all_answer(&mut images, &GONE));
    Ok(())
}

/// Paths that are no names.
const PATHS: [&str; 5] = [
    "../spg-test-images",
    "/tmp/spg-test-images",
    "a/b",
    "..",
    "",
];

/// What each call for them answers.
const REFUSED: [Call; 4] = [
    Call::Clear(Err(IoRefused::Failed)),
    Call::Put(0, Err(IoRefused::Failed)),
    Call::Len(Err(Failed)),
    Call::Get(0, Err(Failed)),
];

/// Whether each call for a path is refused.
fn refuses<I: Images>(images: &mut I, path: &str) -> bool {
    let mut page = [0; 8192];
    for call in &REFUSED {
        if !answers(images, &mut page, path, call) {
            return false;
        }
    }
    true
}

#[test]
fn stays_in_the_folder(rt: HostRuntime) -> Result<(), Fail> {
    let mut images = FolderImages::new(&rt);
    for path in &PATHS {
        assert!(rt; refuses(&mut images, path));
    }
    Ok(())
}

#[test]
fn a_refusal_says_why(rt: HostRuntime) -> Result<(), Fail> {
    let refused = IoRefused::Failed;
    let text = format!(in rt.alloc(); "{refused}")?;
    assert_eq!(rt; text.as_str(), "the device failed");
    Ok(())
}
