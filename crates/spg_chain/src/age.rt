ghost use Rattle.std.specs.Prelude.{◌≡◌, ◌+◌, true, false, length, map};
ghost use Rattle.spg_forest.specs.Pages.{tuple_on, with_tuple};
ghost use Rattle.spg_forest.specs.Tuples.{Placeholder};
ghost use Rattle.spg_forest.specs.Sheets.{with_tuples};
ghost use Rattle.spg_page.specs.Kinds.{IsOffset};
ghost use Rattle.spg_page.specs.Changes.{trimmed};
ghost use Rattle.spg_cover.specs.Swept.{aged};
ghost use Rattle.spg_chain.specs.Ages.{is_old, is_placeholder};

use crate::take::put_placeholder;
use spg_base::{Offset, Stamp};
use spg_page::{Page, TupleKind};

/// Whether a redirect of a stamp below the horizon stands at an offset.
fn is_old_at(page: &Page, offset: Offset, horizon: Stamp) -> bool
    requires { IsOffset page.now.tuples offset }
    ensures { result ≡ is_old horizon (tuple_on page.now.tuples offset) }
{
    page.kind_at(offset) == TupleKind::Redirect && page.stamp_at(offset).moment() < horizon.moment()
}

/// Makes each redirect of a stamp below the horizon a placeholder, and then takes the placeholders at
/// the end of the page away. It tells how many those were. It takes no memory.
pub fn age_page(page: &mut Page, horizon: Stamp) -> u16
    ensures tuples { page.new ≡ with_tuples page.old (trimmed (map (aged horizon) page.old.tuples)) }
    ensures count { result + length page.new.tuples ≡ length page.old.tuples }
{
    for index in 0..page.count() {
        let offset = Offset(index + 1);
        if is_old_at(page, offset, horizon) {
            put_placeholder(page, offset);
        }
    }
    page.trim_end()
}

/// Whether a placeholder stands at an offset.
fn is_placeholder_at(page: &Page, offset: Offset) -> bool
    requires { IsOffset page.now.tuples offset }
    ensures { result ≡ is_placeholder (tuple_on page.now.tuples offset) }
{
    page.kind_at(offset) == TupleKind::Placeholder
}

/// Whether `age_page` changes a page: a redirect of a stamp below the horizon stands there, or a
/// placeholder stands at its end. It takes no memory.
pub fn needs_ageing(page: &Page, horizon: Stamp) -> bool
    ensures yes { result ≡ true → trimmed (map (aged horizon) page.now.tuples) ≡ page.now.tuples → ⊥ }
    ensures no { result ≡ false → trimmed (map (aged horizon) page.now.tuples) ≡ page.now.tuples }
{
    for index in 0..page.count() {
        if is_old_at(page, Offset(index + 1), horizon) {
            return true;
        }
    }
    let count = page.count();
    count != 0 && is_placeholder_at(page, Offset(count))
}
