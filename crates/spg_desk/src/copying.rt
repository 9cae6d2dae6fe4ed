// A copy of the pages, as they stand in one turn.
ghost use Rattle.std.specs.Prelude.{◌≡◌, IfOk};
ghost use Rattle.spg_core.specs.Seen.{past_of};
ghost use Rattle.spg_desk.specs.Knowing.{IsAtRest};
ghost use Rattle.spg_desk.specs.Looks.{IsCopyOf, DidCopy};
ghost use Rattle.spg_desk.specs.Passes.{desk_id, desk_of, view_of};

use crate::desk::Desk;
use crate::looked::PagesAnswer;
use crate::pass::{Going, Pass};
use spg_base::Memory;
use spg_copy::copy_table;
use spg_core::Bare;
use spg_opclass::OpClass;
use spg_tree::PageTable;
use std::alloc::Global;
use std::sync::Wait;

/// A copy of the pages of the index that a turn lends.
fn copy_in<O: OpClass>(alloc: Global, bare: &Bare<O>) -> Result<PageTable, Memory>
    ensures { IfOk result (λ copy. IsCopyOf O.meaning bare.now.origin (past_of bare.now) copy) }
{
    let _ = bare.origin();
    let pages = bare.pages();
    // The meta page stands as an empty leaf page.
    let _ = pages.page_count();
    copy_table(alloc, pages)
}

impl<O: OpClass> Desk<O> {
    /// A copy of the pages as they stand in one turn, whatever the other seats have open: they hold just
    /// the rows that are present then, each with its key, and on the copy no seat holds a block.
    pub fn pages<R: Wait>(&self, rt: &R, pass: Pass<O>) -> (Pass<O>, PagesAnswer)
        requires own { desk_of pass ≡ desk_id self.now }
        ensures own { desk_of result.0 ≡ desk_of pass }
        ensures did { DidCopy O.meaning (view_of pass) (view_of result.0) result.1 }
        ensures free { IsAtRest (view_of result.0) }
    {
        let Pass { going } = pass;
        let held = self.enter(rt, going);
        let copied = copy_in(self.alloc, held.state());
        let (pass, at) = self.end_look(held);
        match copied {
            Ok(pages) => (pass, PagesAnswer::Copied { pages, at }),
            Err(Memory) => (pass, PagesAnswer::Memory(at)),
        }
    }
}
