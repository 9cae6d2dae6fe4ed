ghost use Rattle.std.specs.Prelude.{◌≡◌};
ghost use Rattle.spg_script.specs.Reading.{bracketed, range_from, range_of, now_of};

use crate::bytes::{behind, split};
use crate::numbers::point;
use spg_base::Point;
use spg_range::Range32;

/// What stands between brackets, with nothing behind them.
#[tactic(auto, unfolding(crate::specs::Reading::bracketed))]
fn bracketed(bytes: &[u8]) -> Option<&[u8]>
    ensures { now_of result ≡ bracketed bytes.now }
{
    let inner = behind(bytes, b"[")?;
    let (ends, left) = split(inner, b']')?;
    if left.is_empty() { Some(ends) } else { None }
}

/// The range with these ends, the low one as x and the high one as y. None where they are not in order.
fn range_from(ends: Point) -> Option<Range32>
    ensures { result ≡ range_from ends }
{
    Range32::new(ends.x, ends.y)
}

/// The range that the bytes spell.
#[tactic(auto, unfolding(crate::specs::Reading::range_of))]
pub fn range(bytes: &[u8]) -> Option<Range32>
    ensures { result ≡ range_of bytes.now }
{
    if bytes == b"empty".as_slice() {
        return Some(Range32::empty());
    }
    let ends = bracketed(bytes)?;
    let ends = point(ends)?;
    range_from(ends)
}
