ghost use Rattle.std.specs.Prelude.{◌≡◌, IfSome, IfNone};
ghost use Rattle.spg_script.specs.Line.{keys_of};
ghost use Rattle.spg_script.specs.Spelling.{class_text, class_of, has_values};
ghost use Rattle.spg_script.specs.declared.class_line.ClassLine.{ClassLine};

use crate::class_name::ClassName;
use crate::key_form::KeyForm;

/// What the class line of a script names: a class, and whether a number stands beside each of its keys.
#[derive(Clone, Copy, Debug, PartialEq, Eq)]
pub enum ClassLine {
    /// `class quad`
    Quad,
    /// `class kd`
    Kd,
    /// `class radix`
    Radix,
    /// `class quad value`
    QuadValue,
    /// `class kd value`
    KdValue,
    /// `class radix value`
    RadixValue,
    /// `class range`
    Range,
}

impl ClassLine {
    /// The class, apart from numbers.
    pub fn class(self) -> ClassName
        ensures { result ≡ class_of self }
    {
        match self {
            ClassLine::Quad | ClassLine::QuadValue => ClassName::Quad,
            ClassLine::Kd | ClassLine::KdValue => ClassName::Kd,
            ClassLine::Radix | ClassLine::RadixValue => ClassName::Radix,
            ClassLine::Range => ClassName::Range,
        }
    }

    /// Whether a number stands beside each key.
    pub fn valued(self) -> bool
        ensures { result ≡ has_values self }
    {
        match self {
            ClassLine::QuadValue | ClassLine::KdValue | ClassLine::RadixValue => true,
            ClassLine::Quad | ClassLine::Kd | ClassLine::Radix | ClassLine::Range => false,
        }
    }

    /// What its keys and conditions are.
    pub fn keys(self) -> KeyForm
        ensures { result ≡ keys_of self }
    {
        match self {
            ClassLine::Quad | ClassLine::Kd => KeyForm::Point,
            ClassLine::Radix => KeyForm::Text,
            ClassLine::QuadValue | ClassLine::KdValue => KeyForm::PointValue,
            ClassLine::RadixValue => KeyForm::TextValue,
            ClassLine::Range => KeyForm::Range,
        }
    }

    /// The line itself.
    pub(crate) fn line(self) -> &'static [u8]
        ensures { result.now ≡ class_text self }
    {
        match self {
            ClassLine::Quad => b"class quad",
            ClassLine::Kd => b"class kd",
            ClassLine::Radix => b"class radix",
            ClassLine::QuadValue => b"class quad value",
            ClassLine::KdValue => b"class kd value",
            ClassLine::RadixValue => b"class radix value",
            ClassLine::Range => b"class range",
        }
    }

    /// What the line names. None exactly where it names no class.
    pub(crate) fn of_line(line: &[u8]) -> Option<ClassLine>
        ensures found { IfSome result (λ class. line.now ≡ class_text class) }
        ensures none { IfNone result ((class : ClassLine) → line.now ≡ class_text class → ⊥) }
    {
        if line == b"class quad".as_slice() {
            Some(ClassLine::Quad)
        } else if line == b"class kd".as_slice() {
            Some(ClassLine::Kd)
        } else if line == b"class radix".as_slice() {
            Some(ClassLine::Radix)
        } else if line == b"class quad value".as_slice() {
            Some(ClassLine::QuadValue)
        } else if line == b"class kd value".as_slice() {
            Some(ClassLine::KdValue)
        } else if line == b"class radix value".as_slice() {
            Some(ClassLine::RadixValue)
        } else if line == b"class range".as_slice() {
            Some(ClassLine::Range)
        } else {
            None
        }
    }
}
