use spg_base::Bytes;
use spg_image::{ImageRefused, Verified, verify};
use spg_io::PlainImages;
use std::alloc::Global;
use std::test::Fail;

/// Bytes of an image: their block, where they begin on its page, and they themselves.
pub(crate) type Run = (u8, u16, &'static [u8]);

/// The bytes of a page.
const PAGE: usize = 8192;

/// The bytes of the image.
pub(crate) const LENGTH: usize = 5 * PAGE;

/// An index of five points and a null, class quad, as an image of five pages: its bytes that are not zero.
const TOWN: [Run; 19] = [
    // The meta page: the class, five pages, clock 1.
    (0, 0, &[83, 80, 71, 88, 1, 0, 1]),
    (0, 14, &[248, 31]),
    (0, 24, &[1]),
    (0, 28, &[5]),
    (0, 32, &[1]),
    // The main root: an inner tuple at 0,0 with links to 3, 1, to 3, 3 and to 4, 1.
    (
        1,
        0,
        &[83, 80, 71, 88, 1, 0, 2, 0, 1, 0, 0, 0, 1, 0, 200, 31],
    ),
    (1, 24, &[200, 31, 48]),
    (1, 8136, &[1, 0, 48, 0, 8, 0, 4]),
    (1, 8152, &[3, 0, 0, 0, 1, 0, 0, 0, 3, 0, 0, 0, 3]),
    (1, 8168, &[4, 0, 0, 0, 1]),
    // The root of the nulls tree: the null of row 1.5.
    (
        2,
        0,
        &[83, 80, 71, 88, 1, 0, 3, 1, 2, 0, 0, 0, 1, 0, 232, 31],
    ),
    (2, 24, &[232, 31, 16]),
    (2, 8168, &[2, 0, 16, 0, 0, 0, 5, 0, 1]),
    // The chain of 1.1 with 1,1 and 1.2 with 2,2; that of 1.3 with 1,-1; a redirect to 4, 1 with stamp 0.
    (
        3,
        0,
        &[83, 80, 71, 88, 1, 0, 3, 0, 3, 0, 0, 0, 4, 0, 160, 31],
    ),
    (
        3,
        24,
        &[224, 31, 24, 0, 200, 31, 24, 0, 176, 31, 24, 0, 160, 31, 16],
    ),
    (
        3,
        8096,
        &[
            4, 0, 16, 0, 4, 0, 0, 0, 1, 0, 0, 0, 0, 0, 0, 0, // the redirect
            2, 0, 24, 0, 0, 0, 3, 0, 1, 0, 0, 0, 8, 0, 0, 0, 1, 0, 0, 0, 255, 255, 255, 255, 2, 0,
            24, 0, 0, 0, 2, 0, 1, 0, 0, 0, 8, 0, 0, 0, 2, 0, 0, 0, 2, 0, 0, 0, 2, 0, 24, 0, 2, 0,
            1, 0, 1, 0, 0, 0, 8, 0, 0, 0, 1, 0, 0, 0, 1,
        ],
    ),
    // The chain of 1.4 with -1,-1, and a placeholder.
    (
        4,
        0,
        &[83, 80, 71, 88, 1, 0, 3, 0, 4, 0, 0, 0, 2, 0, 208, 31],
    ),
    (4, 24, &[224, 31, 24, 0, 208, 31, 16]),
    (
        4,
        8144,
        &[
            5, 0, 16, 0, 0, 0, 0, 0, 0, 0, 0, 0, 0, 0, 0, 0, // the placeholder
            2, 0, 24, 0, 0, 0, 4, 0, 1, 0, 0, 0, 8, 0, 0, 0, 255, 255, 255, 255, 255, 255, 255,
            255,
        ],
    ),
];

/// Puts a run of bytes into an image, where it lies inside.
fn put(image: &mut [u8; LENGTH], run: &Run) {
    let (block, at, bytes) = *run;
    let from = PAGE * usize::from(block) + usize::from(at);
    if from <= LENGTH && bytes.len() <= LENGTH - from {
        image[from..from + bytes.len()].copy_from_slice(bytes);
    }
}

/// The image with these changes.
fn changed(changes: &[Run]) -> [u8; LENGTH] {
    let mut image = [0; LENGTH];
    for run in &TOWN {
        put(&mut image, run);
    }
    for run in changes {
        put(&mut image, run);
    }
    image
}

/// Images in which the name `town` has the first bytes of the image with these changes.
pub(crate) fn town(alloc: Global, changes: &[Run], length: usize) -> Result<PlainImages, Fail> {
    let image = changed(changes);
    let mut images = PlainImages::new(alloc);
    images.set("town", Bytes::copy(alloc, &image[..length.min(LENGTH)])?)?;
    Ok(images)
}

/// What is said of them.
pub(crate) fn verdict(
    alloc: Global,
    changes: &[Run],
    length: usize,
) -> Result<Result<Verified, ImageRefused>, Fail> {
    let mut images = town(alloc, changes, length)?;
    Ok(verify(alloc, &mut images, "town"))
}

/// What is said of a name that is not there.
pub(crate) fn nowhere(alloc: Global) -> Result<Verified, ImageRefused> {
    let mut images = PlainImages::new(alloc);
    verify(alloc, &mut images, "town")
}
