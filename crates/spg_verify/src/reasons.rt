ghost use Rattle.std.specs.Prelude.{◌≡◌};
ghost use Rattle.spg_verify.specs.Reasons.{reason_name};

use spg_clauses::Reason;

/// The name of the clause that an image fails.
pub fn reason_name(reason: Reason) -> &'static str
    ensures { result.now ≡ reason_name reason }
{
    match reason {
        Reason::Missing => "missing",
        Reason::Length => "length",
        Reason::Header => "header",
        Reason::Class => "class",
        Reason::Meta => "meta",
        Reason::Items => "items",
        Reason::Tuple => "tuple",
        Reason::Kind => "kind",
        Reason::Root => "root",
        Reason::Redirect => "redirect",
        Reason::Target => "target",
        Reason::Count => "count",
        Reason::Circle => "circle",
        Reason::Key => "key",
        Reason::Row => "row",
    }
}
