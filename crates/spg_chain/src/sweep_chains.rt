ghost use Rattle.std.specs.Prelude.{IfOk};
ghost use Rattle.std.specs.BTreeSet.{contains};
ghost use Rattle.spg_base.specs.Row.{row_cmp};
ghost use Rattle.spg_chain.specs.Chained.{IsLeafPage, IsSweptOf};

use crate::chain::chain_offsets;
use crate::heads::{begins_chain, led_offsets};
use crate::rewrite::rewrite;
use spg_base::{Memory, Offset, RowSet};
use spg_page::Page;
use std::alloc::Global;

/// Sweeps each chain of a leaf page, the head at the lowest offset first. After a refusal some chains
/// may be swept.
pub(crate) fn sweep_chains(alloc: Global, page: &mut Page, targets: &RowSet) -> Result<(), Memory>
    requires { IsLeafPage page.old.tuples }
    ensures { IfOk result (λ done. IsSweptOf (contains row_cmp targets.now.rows) page.old page.new) }
{
    // A sweep makes no head of a tuple that was none, and none at a later offset loses it.
    let led = led_offsets(page);
    for index in 0..page.count() {
        let head = Offset(index + 1);
        if begins_chain(page, &led, head) {
            let offsets = chain_offsets(alloc, page, head)?;
            rewrite(alloc, page, offsets.as_slice(), targets)?;
        }
    }
    Ok(())
}
