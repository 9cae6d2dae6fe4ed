// How each page of an image begins: four letters, and the version of the image.
ghost use Rattle.std.specs.Prelude.{◌≡◌, ◌<◌, ◌≤◌, ◌↔◌, ℕ, length, slice_index, IsTrue};
ghost use Rattle.spg_page.specs.Versions.{version_in, HasMark};

use crate::layout::{put_piece, put_two, two_at};

/// The letters SPGX.
const LETTERS: [u8; 4] = [83, 80, 71, 88];

/// Where the version stands, behind the letters.
const VERSION_AT: usize = 4;

/// The version in the bytes of a page, whatever they are.
pub fn version_in(page: &[u8]) -> u16
    requires { 6 ≤ length page.now }
    ensures { result ≡ version_in page.now }
{
    two_at(page, VERSION_AT)
}

/// Whether the bytes begin as those of a page of this version do.
pub fn has_mark(page: &[u8], version: u16) -> bool
    requires { 6 ≤ length page.now }
    ensures { IsTrue result ↔ HasMark version page.now }
{
    &page[..VERSION_AT] == LETTERS.as_slice() && version_in(page) == version
}

/// Writes the letters and this version.
pub fn put_mark(page: &mut [u8], version: u16)
    requires { 6 ≤ length page.old }
    ensures mark { HasMark version page.new }
    ensures above { (k : ℕ) → 6 ≤ k → slice_index page.new k ≡ slice_index page.old k }
{
    put_piece(page, 0, LETTERS.as_slice());
    put_two(page, VERSION_AT, version);
}
