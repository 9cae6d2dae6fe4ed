use spg_base::PointCond;
use spg_radix::TextCond;
use spg_range::RangeCond;

/// A condition as a script names it.
#[derive(Debug, Drop)]
pub enum AnyCond {
    /// A condition on points, for `quad` and `kd`, with a number beside each key or without.
    Point(PointCond),
    /// A condition on texts, for `radix`, with a number beside each key or without.
    Text(TextCond),
    /// A condition on ranges, for `range`.
    Range(RangeCond),
}
