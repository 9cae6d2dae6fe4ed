ghost use Rattle.std.specs.Prelude.{◌≡◌};
ghost use Rattle.std.specs.BTreeSet.{contains};
ghost use Rattle.spg_base.specs.Row.{row_cmp};
ghost use Rattle.spg_forest.specs.Sheets.{with_tuples};
ghost use Rattle.spg_chain.specs.Told.{without_targets};

use crate::targets::is_target_at;
use spg_base::{Offset, RowSet};
use spg_page::Page;

/// Takes the leaf tuples of the targets away, and later tuples move down. It takes no memory.
pub(crate) fn remove_targets(page: &mut Page, targets: &RowSet)
    ensures { page.new ≡ with_tuples page.old (without_targets (contains row_cmp targets.now.rows) page.old.tuples) }
{
    let mut index = 0;
    while index < page.count() {
        let offset = Offset(index + 1);
        if is_target_at(page, offset, targets) {
            page.remove(offset);
        } else {
            index += 1;
        }
    }
}
