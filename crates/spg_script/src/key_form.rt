/// What the keys and conditions of a class are, as scripts write them.
#[derive(Clone, Copy, Debug, PartialEq, Eq)]
pub enum KeyForm {
    /// Keys are points, and conditions are on points.
    Point,
    /// Keys are texts, and conditions are on texts.
    Text,
    /// Keys are points with a number beside each, and conditions are on points.
    PointValue,
    /// Keys are texts with a number beside each, and conditions are on texts.
    TextValue,
    /// Keys are ranges, and conditions are on ranges.
    Range,
}
