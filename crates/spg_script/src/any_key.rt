use spg_base::Point;
use spg_radix::ByteText;
use spg_range::Range32;

/// A key as a script names it.
#[derive(Debug, Drop)]
pub enum AnyKey {
    /// A point, for `quad` and `kd`.
    Point(Point),
    /// A text of at most 3,900 bytes, for `radix`.
    Text(ByteText),
    /// A point with a number beside it, for `quad value` and `kd value`.
    PointValue { point: Point, value: u64 },
    /// A text of at most 3,900 bytes with a number beside it, for `radix value`.
    TextValue { text: ByteText, value: u64 },
    /// A range, for `range`.
    Range(Range32),
}
