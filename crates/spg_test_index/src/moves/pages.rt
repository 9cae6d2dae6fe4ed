//! Pages that stand already: three chains that fill a leaf page, and empty pages before it.
ghost use Rattle.std.specs.Prelude.{◌≡◌, ℕ, IsTrue, None as Nil, IfOk, false};
ghost use Rattle.spg_forest.specs.Sheets.{blank};
ghost use Rattle.spg_tree.specs.Table.{latch_at, AreRoots};

use spg_base::{Block, List, Memory, Stamp};
use spg_core::State;
use spg_page::{Page, PageKind};
use spg_quad::Quad;
use spg_tree::PageTable;
use std::alloc::Global;

/// The bytes of a page.
const PAGE: usize = 8192;

/// Where the tuples of a page end.
const END: u16 = 8184;

/// The greatest number of pages.
const LIMIT: u32 = 16;

/// How many leaves fill the leaf page.
const LEAVES: u16 = 291;

/// The page of the root, and its only tuple: it divides at 0,0, and its first three nodes lead to the
/// chains that begin at 7, 1, at 7, 41 and at 7, 105.
const ROOT: [(usize, &[u8]); 3] = [
    (0, &[83, 80, 71, 88, 1, 0, 2, 0, 1, 0, 0, 0, 1, 0, 200, 31]),
    (24, &[200, 31, 48, 0]),
    (
        8136,
        &[
            1, 0, 48, 0, 8, 0, 4, 0, 0, 0, 0, 0, 0, 0, 0, 0, 7, 0, 0, 0, 1, 0, 0, 0, 7, 0, 0, 0,
            41, 0, 0, 0, 7, 0, 0, 0, 105, 0, 0, 0,
        ],
    ),
];

/// The head of block 7: 291 items, whose tuples begin at byte 1,200.
const HEAD: [u8; 16] = [83, 80, 71, 88, 1, 0, 3, 0, 7, 0, 0, 0, 35, 1, 176, 4];

/// The version of the pages.
const VERSION: u16 = 1;

/// Puts bytes into a page, where they lie inside.
fn put(page: &mut [u8; 8192], at: usize, bytes: &[u8]) {
    if at <= PAGE && bytes.len() <= PAGE - at {
        page[at..at + bytes.len()].copy_from_slice(bytes);
    }
}

/// Puts the page of a block there, from bytes.
fn push_read(
    alloc: Global,
    pages: &mut List<Page>,
    block: u32,
    bytes: &[u8; 8192],
) -> Result<(), Memory> {
    match Page::from_bytes(alloc, Block(block), bytes, VERSION)? {
        Ok(page) => pages.push(page),
        Err(_) => Err(Memory),
    }
}

/// A leaf of the full page: its row, its point, and whether its chain ends with it. The chains run in
/// offset order.
fn leaf_at(offset: u16) -> (u32, u16, i32, i32, bool) {
    match offset {
        0..=40 => (1, offset, 1, 1, offset == 40),
        41..=104 => (2, offset - 40, i32::from(offset) - 40, -1, offset == 104),
        _ => (4, offset - 104, -1, -1, offset == LEAVES),
    }
}

/// Puts the item pointer of an offset, whose tuple begins there.
fn put_item(page: &mut [u8; 8192], offset: u16, begin: u16) {
    let item = usize::from(offset) * 4 + 20;
    put(page, item, &begin.to_le_bytes());
    put(page, item + 2, &[24]);
}

/// Puts the leaf of an offset where its tuple begins.
fn put_tuple(page: &mut [u8; 8192], offset: u16, begin: u16) {
    let (block, row, x, y, is_last) = leaf_at(offset);
    let next = if is_last { 0 } else { offset.saturating_add(1) };
    let at = usize::from(begin);
    put(page, at, &[2, 0, 24, 0]);
    put(page, at + 4, &next.to_le_bytes());
    put(page, at + 6, &row.to_le_bytes());
    put(page, at + 8, &block.to_le_bytes());
    put(page, at + 12, &[8]);
    put(page, at + 16, &x.to_le_bytes());
    put(page, at + 20, &y.to_le_bytes());
}

/// Puts the leaf at an offset of the full page, and its item pointer.
fn put_leaf(page: &mut [u8; 8192], offset: u16) {
    if offset == 0 || offset > LEAVES {
        return;
    }
    let begin = END - 24 * offset;
    put_item(page, offset, begin);
    put_tuple(page, offset, begin);
}

/// The bytes of the root's page.
fn root_bytes() -> [u8; 8192] {
    let mut page = [0; PAGE];
    for (at, bytes) in ROOT {
        put(&mut page, at, bytes);
    }
    page
}

/// The bytes of the full page.
fn full_bytes() -> [u8; 8192] {
    let mut page = [0; PAGE];
    put(&mut page, 0, &HEAD);
    for offset in 1..=LEAVES {
        put_leaf(&mut page, offset);
    }
    page
}

/// Puts an empty leaf page there.
fn push_empty(alloc: Global, pages: &mut List<Page>, is_nulls: bool) -> Result<(), Memory> {
    let page = Page::new(alloc, PageKind::Leaf, is_nulls)?;
    pages.push(page)
}

/// Puts the pages of the index there, from block 0 on.
fn push_pages(alloc: Global, pages: &mut List<Page>) -> Result<(), Memory> {
    push_empty(alloc, pages, false)?;
    push_read(alloc, pages, 1, &root_bytes())?;
    push_empty(alloc, pages, true)?;
    for _ in 3..7 {
        push_empty(alloc, pages, false)?;
    }
    push_read(alloc, pages, 7, &full_bytes())
}

fn pages(alloc: Global) -> Result<List<Page>, Memory> {
    let mut pages = List::new(alloc);
    push_pages(alloc, &mut pages)?;
    Ok(pages)
}

/// Whether a page may stand for the meta page.
fn is_meta(page: &Page) -> bool
    ensures { IsTrue result → page.now ≡ blank false }
{
    page.kind() == PageKind::Leaf && !page.is_nulls() && page.count() == 0
}

/// Whether the first pages may be the meta page and the roots.
fn are_roots(pages: &List<Page>) -> bool
    ensures { IsTrue result → AreRoots pages.now }
{
    match (pages.get(0), pages.get(1), pages.get(2)) {
        (Some(meta), Some(main), Some(nulls)) => {
            is_meta(meta) && !main.is_nulls() && nulls.is_nulls()
        }
        _ => false,
    }
}

/// A table of pages, at clock 0.
fn table_of(alloc: Global, pages: List<Page>) -> Result<PageTable, Memory>
    ensures roots { IfOk result (λ table. AreRoots table.pages) }
    ensures latches { IfOk result (λ table. (b : ℕ) → latch_at table b ≡ Nil) }
{
    if !are_roots(&pages) || pages.len() < 3 || pages.len() > LIMIT as usize {
        return Err(Memory);
    }
    PageTable::with_pages(alloc, pages, LIMIT, Stamp::at(0))
}

/// The index of these pages.
pub(crate) fn adopted(alloc: Global) -> Result<State<Quad>, Memory> {
    let table = table_of(alloc, pages(alloc)?)?;
    match State::adopt(alloc, Quad, table)? {
        Ok(state) => Ok(state),
        Err(_) => Err(Memory),
    }
}
