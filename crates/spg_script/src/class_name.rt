/// The operator class of a script, apart from a number beside its keys.
#[derive(Clone, Copy, Debug, PartialEq, Eq)]
pub enum ClassName {
    /// Points, by quadrants.
    Quad,
    /// Points, by one coordinate after the other.
    Kd,
    /// Texts, by their bytes.
    Radix,
    /// Ranges of whole numbers, by quadrants of their ends.
    Range,
}
