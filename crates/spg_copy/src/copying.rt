ghost use Rattle.std.specs.Prelude.{◌≡◌, IfOk};
ghost use Rattle.spg_tree.specs.Table.{AreRoots};
ghost use Rattle.spg_copy.specs.Copies.{unlatched};

use spg_base::{Block, List, Memory};
use spg_page::{Page, PageKind};
use spg_tree::PageTable;
use std::alloc::Global;

/// A copy of each page of a table.
fn copy_each(alloc: Global, table: &PageTable) -> Result<List<Page>, Memory>
    ensures { IfOk result (λ pages. pages ≡ table.now.pages) }
{
    let mut pages = List::new(alloc);
    for block in 0..table.page_count() {
        let mut page = Page::new(alloc, PageKind::Leaf, false)?;
        page.copy_from(table.page(Block(block)));
        pages.push(page)?;
    }
    Ok(pages)
}

/// A copy of a table, on which no seat holds a block, and no block is told as touched.
pub fn copy_table(alloc: Global, table: &PageTable) -> Result<PageTable, Memory>
    requires { AreRoots table.now.pages }
    ensures { IfOk result (λ copy. copy ≡ unlatched table.now) }
{
    let pages = copy_each(alloc, table)?;
    // The table is sound.
    let _ = table.page_count();
    let meta = table.meta();
    let mut copy = PageTable::with_pages(alloc, pages, table.limit(), meta.clock)?;
    copy.set_meta(meta);
    Ok(copy)
}
