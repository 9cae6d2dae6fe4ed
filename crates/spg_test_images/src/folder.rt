//! The same calls, on files of the current folder and in memory, answer the same. Names that no file can have
//! are refused. A file is kept open between reads alone.

use spg_base::Bytes;
use spg_io::{FolderImages, Images, IoRefused, PlainImages};
use std::alloc::Global;
use std::fs;
use std::rt::Files;
use std::test::Fail;

/// A call on images.
#[derive(Clone, Copy)]
enum Call {
    Len(&'static str),
    Clear(&'static str),
    /// Puts the page of this number.
    Put(&'static str, u8),
    /// Reads a block.
    Get(&'static str, u32),
}

const TOWN: &str = "spg-test-town";

const ROAD: &str = "spg-test-road";

/// A folder stands under this name.
const YARD: &str = "spg-test-yard";

const CALLS: [Call; 26] = [
    Call::Len(TOWN),
    Call::Get(TOWN, 0),
    Call::Put(TOWN, 1),
    Call::Len(TOWN),
    Call::Put(TOWN, 2),
    Call::Put(TOWN, 3),
    Call::Len(TOWN),
    Call::Get(TOWN, 2),
    Call::Get(TOWN, 0),
    Call::Get(TOWN, 1),
    Call::Get(TOWN, 3),
    // Another name between reads of one.
    Call::Put(ROAD, 4),
    Call::Get(TOWN, 1),
    Call::Get(ROAD, 0),
    Call::Get(ROAD, 1),
    Call::Get(TOWN, 2),
    // A page that is added to a name while it is read.
    Call::Put(TOWN, 5),
    Call::Get(TOWN, 3),
    // A longer file is written over.
    Call::Clear(TOWN),
    Call::Len(TOWN),
    Call::Get(TOWN, 0),
    Call::Put(TOWN, 6),
    Call::Get(TOWN, 0),
    Call::Get(TOWN, 1),
    Call::Len(TOWN),
    Call::Get(ROAD, 0),
];

/// Calls on a name that holds a page and a part of one.
const CUT_CALLS: [Call; 12] = [
    Call::Len(TOWN),
    Call::Get(TOWN, 0),
    Call::Get(TOWN, 1),
    // A page more begins in the midst of a block.
    Call::Put(TOWN, 7),
    Call::Len(TOWN),
    Call::Get(TOWN, 1),
    Call::Get(TOWN, 2),
    Call::Put(TOWN, 8),
    Call::Get(TOWN, 2),
    Call::Clear(TOWN),
    Call::Get(TOWN, 0),
    Call::Len(TOWN),
];

/// A page and 1,808 bytes more.
const CUT: usize = 10_000;

/// A page whose bytes go by the number and by where they stand.
fn page_of(number: u8) -> [u8; 8192] {
    let mut page = [number; 8192];
    for (index, byte) in page.iter_mut().enumerate() {
        *byte = number.wrapping_mul(31) ^ (index % 251) as u8;
    }
    page
}

/// Whether both read the block alike, and the same bytes.
fn reads_alike<I: Images, J: Images>(one: &mut I, other: &mut J, name: &str, block: u32) -> bool {
    let mut page = [0; 8192];
    let mut other_page = [0; 8192];
    let inside = one.get(name, block, &mut page);
    inside == other.get(name, block, &mut other_page)
        && (inside != Ok(true) || page.as_slice() == other_page.as_slice())
}

/// Whether a call answers the same on both.
fn is_alike<I: Images, J: Images>(one: &mut I, other: &mut J, call: Call) -> bool {
    match call {
        Call::Len(name) => one.len(name) == other.len(name),
        Call::Clear(name) => one.clear(name) == other.clear(name),
        Call::Put(name, number) => {
            let page = page_of(number);
            one.put(name, &page) == other.put(name, &page)
        }
        Call::Get(name, block) => reads_alike(one, other, name, block),
    }
}

/// The number of the first call that answers otherwise on both.
fn first_apart<I: Images, J: Images>(calls: &[Call], one: &mut I, other: &mut J) -> Option<usize> {
    for (number, call) in calls.iter().enumerate() {
        if !is_alike(one, other, *call) {
            return Some(number);
        }
    }
    None
}

/// Whether each call on the name fails.
fn fails<I: Images>(images: &mut I, name: &str) -> bool {
    let mut page = [0; 8192];
    images.len(name).is_err()
        && images.get(name, 0, &mut page).is_err()
        && images.put(name, &page) == Err(IoRefused::Failed)
        && images.clear(name) == Err(IoRefused::Failed)
}

/// Leaves no file and no folder of these names.
fn remove<R: Files>(rt: &R) {
    let _ = fs::remove_file(rt, TOWN);
    let _ = fs::remove_file(rt, ROAD);
    let _ = fs::remove_dir(rt, YARD);
}

/// What is called between two reads of a name whose file is taken away meanwhile and made anew, and the page
/// that is read at last: 1 was put first, 2 in between, 3 by another.
const BETWEEN: [(Option<Call>, u8); 4] = [
    (None, 1),
    (Some(Call::Len(TOWN)), 3),
    (Some(Call::Clear(TOWN)), 3),
    (Some(Call::Put(TOWN, 2)), 2),
];

/// Whether the page of this number is put.
fn puts<I: Images>(images: &mut I, number: u8) -> bool {
    images.put(TOWN, &page_of(number)).is_ok()
}

/// Whether the page of this number is read first.
fn reads<I: Images>(images: &mut I, number: u8) -> bool {
    let mut page = [0; 8192];
    images.get(TOWN, 0, &mut page) == Ok(true) && page.as_slice() == page_of(number).as_slice()
}

/// Whether a call, where there is one, answers as it does on no images.
fn is_called<I: Images>(alloc: Global, images: &mut I, call: Option<Call>) -> bool {
    match call {
        Some(call) => is_alike(images, &mut PlainImages::new(alloc), call),
        None => true,
    }
}

#[test]
fn a_folder_holds_images_as_memory_does(rt: HostRuntime) -> Result<(), Fail> {
    remove(&rt);
    let mut images = FolderImages::new(&rt);
    let apart = first_apart(&CALLS, &mut images, &mut PlainImages::new(rt.alloc()));
    remove(&rt);
    assert_eq!(rt; apart, None);
    Ok(())
}

#[test]
fn a_file_ends_in_the_midst_of_a_page(rt: HostRuntime) -> Result<(), Fail> {
    remove(&rt);
    let mut bytes = [7; CUT];
    bytes[..8192].copy_from_slice(&page_of(9));
    fs::write(&rt, TOWN, bytes)?;
    let mut memory = PlainImages::new(rt.alloc());
    memory.set(TOWN, Bytes::copy(rt.alloc(), &bytes)?)?;
    let apart = first_apart(&CUT_CALLS, &mut FolderImages::new(&rt), &mut memory);
    remove(&rt);
    assert_eq!(rt; apart, None);
    Ok(())
}

#[test]
fn a_folder_refuses_what_is_no_file(rt: HostRuntime) -> Result<(), Fail> {
    remove(&rt);
    fs::create_dir(&rt, YARD)?;
    let mut images = FolderImages::new(&rt);
    let yard = fails(&mut images, YARD);
    let up = fails(&mut images, "../spg-test-town");
    remove(&rt);
    assert!(rt; yard && up);
    Ok(())
}

/// Between reads alone a file stays open, and every other call lets it go.
#[test]
fn each_call_but_a_read_looks_for_the_file_anew(rt: HostRuntime) -> Result<(), Fail> {
    remove(&rt);
    for (call, number) in &BETWEEN {
        let mut images = FolderImages::new(&rt);
        let first = puts(&mut images, 1) && reads(&mut images, 1);
        remove(&rt);
        let called = is_called(rt.alloc(), &mut images, *call);
        let put = puts(&mut FolderImages::new(&rt), 3);
        let last = reads(&mut images, *number);
        remove(&rt);
        assert!(rt; first && called && put && last, "page {number}");
    }
    Ok(())
}
