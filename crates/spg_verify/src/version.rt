//! The versions of images.
ghost use Rattle.std.specs.Prelude.{◌≡◌, ◌↔◌, IsTrue};
ghost use Rattle.spg_verify.specs.Versions.{version_of};
ghost use Rattle.spg_verify.specs.Meta.{IsOfClass};

use crate::meta::code_in;
use spg_page::version_in;

/// The codes of the classes whose images have version 2: ranges, and points in a quad tree, points in a
/// k-d tree and texts with values beside them.
const SECOND_CODES: [u8; 4] = [4, 17, 18, 19];

/// The version of the images of the class with this code: 2 for ranges and for keys with values, else 1.
pub fn version_of(code: u8) -> u16
    ensures { result ≡ version_of code }
{
    if SECOND_CODES.contains(&code) { 2 } else { 1 }
}

/// Whether a meta page names the class with this code, and has the version of its images.
pub fn is_of_class(page: &[u8; 8192], code: u8) -> bool
    ensures { IsTrue result ↔ IsOfClass code page.now }
{
    code_in(page) == code && version_in(page) == version_of(code)
}
