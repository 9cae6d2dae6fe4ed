ghost use Rattle.std.specs.Prelude.{◌≡◌};
ghost use Rattle.spg_calls.specs.Calls.{joined};

use spg_base::Span;

/// The span of sections that follow sections. One without an event adds nothing.
pub(crate) fn joined(first: Span, next: Span) -> Span
    ensures { result ≡ joined first next }
{
    if next.from < next.to {
        if first.from < first.to {
            Span {
                from: first.from,
                to: next.to,
            }
        } else {
            next
        }
    } else {
        first
    }
}
