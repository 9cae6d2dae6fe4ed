// Classes by their numbers.
ghost use Rattle.std.specs.Prelude.{◌≡◌};
ghost use Rattle.spg_c.specs.Calls.{class_of};

/// The class of an index, by the number that C gives it.
#[derive(Clone, Copy, Debug, PartialEq, Eq)]
pub enum Class {
    /// 1: points, divided in four at the average of both coordinates.
    Quad,
    /// 2: points, divided in two at the median of one coordinate.
    Kd,
    /// 3: texts.
    Radix,
}

/// The class of this number.
pub(crate) fn numbered(number: u32) -> Option<Class>
    ensures { result ≡ class_of number }
{
    match number {
        1 => Some(Class::Quad),
        2 => Some(Class::Kd),
        3 => Some(Class::Radix),
        _ => None,
    }
}
