//! The classes whose images are known.
ghost use Rattle.std.specs.Prelude.{◌≡◌, ◌≢◌, MatchOption};
ghost use Rattle.spg_verify.specs.Meta.{IsOfClass};
ghost use Rattle.spg_image.specs.declared.class.ImageClass.{ImageClass as OneClass};
ghost use Rattle.spg_image.specs.Classes.{code_of};

use spg_verify::{code_in, is_of_class};

/// A class whose images are known.
#[derive(Clone, Copy, Debug, PartialEq, Eq)]
pub enum ImageClass {
    /// Points in a quad tree.
    Quad,
    /// Points in a k-d tree.
    Kd,
    /// Texts in a radix tree.
    Radix,
    /// Ranges of whole numbers.
    Range,
    /// Points in a quad tree with values beside them.
    QuadValue,
    /// Points in a k-d tree with values beside them.
    KdValue,
    /// Texts in a radix tree with values beside them.
    RadixValue,
}

impl ImageClass {
    /// The code by which the meta page names the class.
    pub fn code(self) -> u8
        ensures { result ≡ code_of self }
    {
        match self {
            ImageClass::Quad => 1,
            ImageClass::Kd => 2,
            ImageClass::Radix => 3,
            ImageClass::Range => 4,
            ImageClass::QuadValue => 17,
            ImageClass::KdValue => 18,
            ImageClass::RadixValue => 19,
        }
    }

    /// The class with this code. None where none has it.
    pub fn with_code(code: u8) -> Option<ImageClass>
        ensures { MatchOption result ((c : OneClass) → code_of c ≢ code) (λ c. code_of c ≡ code) }
    {
        match code {
            1 => Some(ImageClass::Quad),
            2 => Some(ImageClass::Kd),
            3 => Some(ImageClass::Radix),
            4 => Some(ImageClass::Range),
            17 => Some(ImageClass::QuadValue),
            18 => Some(ImageClass::KdValue),
            19 => Some(ImageClass::RadixValue),
            _ => None,
        }
    }
}

/// The class that a meta page names, where the page has the version of its images.
pub(crate) fn class_in(page: &[u8; 8192]) -> Option<ImageClass>
    ensures { MatchOption result ((c : OneClass) → IsOfClass (code_of c) page.now → ⊥) (λ c. IsOfClass (code_of c) page.now) }
{
    let class = ImageClass::with_code(code_in(page))?;
    if is_of_class(page, class.code()) {
        Some(class)
    } else {
        None
    }
}
