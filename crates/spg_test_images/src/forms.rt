//! Names, images in memory, and such whose calls fail.

use crate::calls::{Call, all_answer};
use spg_base::{Bytes, Failed, List, Memory};
use spg_io::{FaultyImages, IoRefused, PlainImages, is_name};
use std::alloc::Global;
use std::test::Fail;

/// Texts, and whether they are names.
const NAMES: [(&str, bool); 15] = [
    ("town", true),
    ("7", true),
    ("_", true),
    ("a-b.c_9", true),
    (
        "x1234567890123456789012345678901234567890123456789012345678901234",
        false,
    ),
    (
        "123456789012345678901234567890123456789012345678901234567890123",
        true,
    ),
    ("", false),
    (".", false),
    ("..", false),
    ("-a", false),
    (".hidden", false),
    ("a/b", false),
    ("/a", false),
    ("Town", false),
    ("a b", false),
];

#[test]
fn tells_names(rt: HostRuntime) -> Result<(), Fail> {
    for (text, expected) in &NAMES {
        assert!(rt; is_name(text) == *expected);
    }
    Ok(())
}

/// Two pages are put under a name, where another name has three bytes.
const KEPT: [(&str, Call); 12] = [
    ("town", Call::Len(Ok(None))),
    ("town", Call::Clear(Ok(()))),
    ("town", Call::Len(Ok(Some(0)))),
    ("town", Call::Put(1, Ok(()))),
    ("town", Call::Put(2, Ok(()))),
    ("town", Call::Len(Ok(Some(16384)))),
    ("town", Call::Get(1, Ok(true))),
    ("town", Call::Holds(0, 2)),
    ("town", Call::Holds(8191, 2)),
    ("town", Call::Get(2, Ok(false))),
    ("other", Call::Get(0, Ok(false))),
    ("none", Call::Get(0, Ok(false))),
];

/// Whether these are the bytes under three names.
fn has_bytes(images: &PlainImages) -> bool {
    images.bytes("town") == Some(b"".as_slice())
        && images.bytes("other") == Some(b"abc".as_slice())
        && images.bytes("none").is_none()
}

/// Whether images with three bytes keep what is put, and let it go.
fn are_kept(alloc: Global) -> Result<bool, Memory> {
    let mut images = PlainImages::new(alloc);
    images.set("other", Bytes::copy(alloc, b"abc")?)?;
    let kept = all_answer(&mut images, &KEPT);
    let cleared = all_answer(&mut images, &[("town", Call::Clear(Ok(())))]);
    Ok(kept && cleared && has_bytes(&images))
}

#[test]
fn keeps_bytes_under_names(rt: HostRuntime) -> Result<(), Fail> {
    assert!(rt; are_kept(rt.alloc())?);
    Ok(())
}

fn numbers(alloc: Global, some: &[u64]) -> Result<List<u64>, Memory> {
    let mut numbers = List::new(alloc);
    for number in some {
        numbers.push(*number)?;
    }
    Ok(numbers)
}

/// Every second call fails. Two bytes stand under the name before.
const FAILING: [(&str, Call); 10] = [
    ("town", Call::Put(7, Ok(()))),
    ("town", Call::Put(7, Err(IoRefused::Failed))),
    ("town", Call::Len(Ok(Some(8194)))),
    ("town", Call::Len(Err(Failed))),
    ("town", Call::Get(0, Ok(true))),
    ("town", Call::Get(0, Err(Failed))),
    ("town", Call::Holds(1, b'b')),
    ("town", Call::Holds(2, 7)),
    ("other", Call::Len(Ok(None))),
    ("town", Call::Clear(Err(IoRefused::Failed))),
];

/// How many bytes stand under the name.
fn length(images: &FaultyImages) -> Option<usize> {
    images.bytes("town").map(|bytes| bytes.len())
}

/// Whether the calls of images fail so, and a clear is done only where it does not fail.
fn fail_so(images: &mut FaultyImages) -> bool {
    let so = all_answer(images, &FAILING);
    let before = length(images);
    let cleared = all_answer(images, &[("town", Call::Clear(Ok(())))]);
    so && cleared && (before, length(images)) == (Some(8194), Some(0))
}

/// Images of which these calls fail, with two bytes under the name.
fn failing(alloc: Global) -> Result<FaultyImages, Memory> {
    let mut images = FaultyImages::new(alloc, numbers(alloc, &[2, 4, 6, 8])?);
    images.set("town", Bytes::copy(alloc, b"ab")?)?;
    Ok(images)
}

#[test]
fn fails_at_the_named_calls(rt: HostRuntime) -> Result<(), Fail> {
    let mut images = failing(rt.alloc())?;
    assert!(rt; fail_so(&mut images));
    Ok(())
}
