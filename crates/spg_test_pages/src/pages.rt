ghost use Rattle.std.specs.Prelude.{◌≡◌, ◌<◌, ◌≤◌, true, length, IfOk, IfSome};
ghost use Rattle.std.specs.List.{AllByRecursion};
ghost use Rattle.spg_forest.specs.Pages.{tuple_on};
ghost use Rattle.spg_page.specs.Kinds.{IsLive, IsInner};

use spg_base::{Block, Bytes, Memory, Offset, Place, Row, Stamp};
use spg_page::{InnerTuple, LeafTuple, Node, Nodes, Page, PageKind, Tuple, TupleBytes, TupleKind};
use std::alloc::Global;
use std::test::Fail;

/// The leaf of row 1.1 with point 3,4 at the end of its chain.
fn point_leaf(alloc: Global) -> Result<TupleBytes, Memory> {
    let rest = Bytes::copy(alloc, [3, 0, 0, 0, 4, 0, 0, 0].as_slice())?;
    let leaf = LeafTuple {
        row: Row::at(1, 1),
        next: None,
        rest,
    };
    TupleBytes::of(alloc, &Tuple::Leaf(leaf))
}

/// Whether the bytes from there on are these.
fn has(bytes: &[u8], from: usize, wanted: &[u8]) -> bool {
    let mut at = from;
    let mut all = true;
    for byte in wanted {
        all = all && bytes.get(at) == Some(byte);
        at = at.wrapping_add(1);
    }
    all
}

/// Adds a tuple to an empty page, and says whether it went to the first offset.
fn adds_first(page: &mut Page, tuple: &TupleBytes) -> bool {
    page.room(1) == 8160 && page.room(1) >= tuple.size() + 4 && page.add(tuple) == Offset(1)
}

/// Puts a tuple in the place of the first, where it fits.
fn replace_first(page: &mut Page, tuple: &TupleBytes) {
    if page.count() > 0 && tuple.size() <= page.size_at(Offset(1)) + page.free() {
        page.replace(Offset(1), tuple);
    }
}

/// Whether a page with the leaf alone has these bytes.
fn shows_the_leaf(bytes: &[u8]) -> bool {
    let head = [83, 80, 71, 88, 1, 0, 3, 0, 0, 0, 0, 0, 1, 0, 0xe0, 0x1f];
    let written = [
        2, 0, 0x18, 0, 0, 0, 1, 0, 1, 0, 0, 0, 8, 0, 0, 0, 3, 0, 0, 0, 4, 0, 0, 0,
    ];
    has(bytes, 0, head.as_slice())
        && has(bytes, 24, &[0xe0, 0x1f, 0x18, 0])
        && has(bytes, 8160, written.as_slice())
}

#[test]
fn bytes_of_a_page(rt: HostRuntime) -> Result<(), Fail> {
    let leaf = point_leaf(rt.alloc())?;
    let mut page = Page::new(rt.alloc(), PageKind::Leaf, false)?;
    assert!(rt; adds_first(&mut page, &leaf));
    assert!(rt; page.free() == 8132 && shows_the_leaf(page.bytes().as_slice()));
    Ok(())
}

#[test]
fn bytes_of_smaller_tuples(rt: HostRuntime) -> Result<(), Fail> {
    let leaf = point_leaf(rt.alloc())?;
    let mut page = Page::new(rt.alloc(), PageKind::Leaf, false)?;
    assert!(rt; adds_first(&mut page, &leaf));
    replace_first(&mut page, &TupleBytes::dead());
    assert!(rt; page.free() == 8140 && has(page.bytes().as_slice(), 14, &[0xe8, 0x1f]));
    replace_first(&mut page, &TupleBytes::redirect(place(8), Stamp::at(0)));
    let written = [4, 0, 0x10, 0, 8, 0, 0, 0, 1, 0, 0, 0, 0, 0, 0, 0];
    assert!(rt; has(page.bytes().as_slice(), 8168, written.as_slice()));
    Ok(())
}

/// A tuple as a test writes it: a leaf by its row's block, the length of its rest and its next offset, an
/// inner tuple by its first link's block.
#[derive(Clone, Copy, Debug, PartialEq, Eq)]
enum Item {
    Leaf(u32, u8, u16),
    Inner(u32),
    Dead,
    Redirect(u32),
    Placeholder,
}

#[derive(Clone, Copy, Debug)]
enum Change {
    Add(Item),
    Replace(u16, Item),
    Remove(u16),
    SetNext(u16, u16),
    SetLink(u16, u32),
    Blank(u16, u16),
    TrimEnd,
}

fn place(block: u32) -> Place
    ensures block { result.block ≡ block }
    ensures offset { result.offset ≡ 1 }
{
    Place {
        block: Block(block),
        offset: Offset(1),
    }
}

fn leaf_of(alloc: Global, block: u32, len: u8, next: u16) -> Result<TupleBytes, Memory> {
    let mut rest = Bytes::new(alloc);
    for i in 0..len {
        rest.push(i)?;
    }
    let next = if next == 0 { None } else { Some(Offset(next)) };
    if rest.len() > 255 {
        return Err(Memory);
    }
    let row = Row::at(block, 7);
    TupleBytes::of(alloc, &Tuple::Leaf(LeafTuple { row, next, rest }))
}

fn link_to(block: u32) -> Option<Place>
    ensures { IfSome result (λ to. (0 < to.block) × (0 < to.offset)) }
{
    if block == 0 { None } else { Some(place(block)) }
}

fn one_node(alloc: Global, link: Option<Place>) -> Result<Nodes, Memory>
    requires { IfSome link (λ to. (0 < to.block) × (0 < to.offset)) }
    ensures length { IfOk result (λ nodes. length nodes ≡ 1) }
    ensures links { IfOk result (λ nodes. AllByRecursion (λ n. IfSome n.link (λ to. (0 < to.block) × (0 < to.offset))) nodes) }
{
    let mut nodes = Nodes::new(alloc);
    nodes.push(Node { label: -2, link })?;
    Ok(nodes)
}

fn inner_of(alloc: Global, block: u32) -> Result<TupleBytes, Memory> {
    let nodes = one_node(alloc, link_to(block))?;
    let prefix = Bytes::copy(alloc, [9; 5].as_slice())?;
    let tuple = InnerTuple {
        all_same: true,
        prefix,
        nodes,
    };
    TupleBytes::of(alloc, &Tuple::Inner(tuple))
}

fn bytes_of(alloc: Global, item: Item) -> Result<TupleBytes, Memory> {
    match item {
        Item::Leaf(block, len, next) => leaf_of(alloc, block, len, next),
        Item::Inner(block) => inner_of(alloc, block),
        Item::Dead => Ok(TupleBytes::dead()),
        Item::Redirect(block) => Ok(TupleBytes::redirect(place(block), Stamp::at(5))),
        Item::Placeholder => Ok(TupleBytes::placeholder()),
    }
}

fn size_of(item: Item) -> u16 {
    match item {
        Item::Leaf(_, len, _) => 16 + (len as u16 + 7) / 8 * 8,
        Item::Inner(_) => 24,
        _ => 16,
    }
}

fn add_item(alloc: Global, page: &mut Page, item: Item) -> Result<(), Memory> {
    let bytes = bytes_of(alloc, item)?;
    if page.room(1) >= bytes.size() + 4 {
        page.add(&bytes);
    }
    Ok(())
}

fn replace_item(alloc: Global, page: &mut Page, o: u16, item: Item) -> Result<(), Memory> {
    let bytes = bytes_of(alloc, item)?;
    if 0 < o && o <= page.count() && bytes.size() <= page.size_at(Offset(o)) + page.free() {
        page.replace(Offset(o), &bytes);
    }
    Ok(())
}

fn set_link(page: &mut Page, o: u16, block: u32) {
    if is_inner(page, o) && 0 < page.node_count_at(Offset(o)) && 0 < block {
        page.set_link(Offset(o), 0, Some(place(block)));
    }
}

/// The change of the page, where its conditions hold.
fn change_page(alloc: Global, page: &mut Page, change: Change) -> Result<(), Memory> {
    match change {
        Change::Add(item) => add_item(alloc, page, item)?,
        Change::Replace(o, item) => replace_item(alloc, page, o, item)?,
        Change::Remove(o) => {
            if is_live(page, o) {
                page.remove(Offset(o));
            }
        }
        Change::SetNext(o, next) => {
            if is_live(page, o) && 0 < next {
                page.set_next(Offset(o), Some(Offset(next)));
            }
        }
        Change::SetLink(o, block) => set_link(page, o, block),
        Change::Blank(first, second) => page.blank(&marks(first, second)),
        Change::TrimEnd => {
            page.trim_end();
        }
    }
    Ok(())
}

/// The marks of two offsets.
fn marks(first: u16, second: u16) -> [bool; 409] {
    let mut marked = [false; 409];
    for o in [first, second] {
        if (o as usize) < marked.len() {
            marked[o as usize] = true;
        }
    }
    marked
}

fn is_live(page: &Page, o: u16) -> bool
    ensures { result ≡ true → (0 < o) × (o ≤ length page.now.tuples) × IsLive (tuple_on page.now.tuples o) }
{
    if o == 0 || o > page.count() {
        return false;
    }
    match page.kind_at(Offset(o)) {
        TupleKind::Leaf => true,
        _ => false,
    }
}

fn is_inner(page: &Page, o: u16) -> bool
    ensures { result ≡ true → (0 < o) × (o ≤ length page.now.tuples) × IsInner (tuple_on page.now.tuples o) }
{
    if o == 0 || o > page.count() {
        return false;
    }
    match page.kind_at(Offset(o)) {
        TupleKind::Inner => true,
        _ => false,
    }
}

/// The same change of a plain list.
fn change_list(list: &mut Vec<Item>, change: Change) -> Result<(), Memory> {
    match change {
        Change::Add(item) => {
            for slot in &mut *list {
                if *slot == Item::Placeholder {
                    *slot = item;
                    return Ok(());
                }
            }
            list.push(item)?;
        }
        Change::Replace(o, item) => put(list, o, item),
        Change::Remove(o) => {
            if 0 < o && (o as usize) <= list.len() {
                list.remove(o as usize - 1);
            }
        }
        Change::SetNext(o, next) => {
            if let Some(Item::Leaf(block, len, _)) = at(list, o) {
                put(list, o, Item::Leaf(block, len, next));
            }
        }
        Change::SetLink(o, block) => put(list, o, Item::Inner(block)),
        Change::Blank(first, second) => {
            put(list, first, Item::Placeholder);
            put(list, second, Item::Placeholder);
        }
        Change::TrimEnd => {
            let mut kept = 0;
            for i in 0..list.len() {
                if list[i] != Item::Placeholder {
                    kept = i + 1;
                }
            }
            list.truncate(kept);
        }
    }
    Ok(())
}

fn at(list: &Vec<Item>, o: u16) -> Option<Item> {
    if o == 0 {
        return None;
    }
    list.get(o as usize - 1).copied()
}

fn put(list: &mut Vec<Item>, o: u16, item: Item) {
    if 0 < o && (o as usize) <= list.len() {
        list[o as usize - 1] = item;
    }
}

/// What the page tells of a tuple.
fn seen(page: &Page, o: u16) -> Option<Item> {
    if o == 0 || o > page.count() {
        return None;
    }
    let offset = Offset(o);
    match page.kind_at(offset) {
        TupleKind::Leaf => {
            let next = match page.next_at(offset) {
                None => 0,
                Some(next) => next.0,
            };
            let len = (page.rest_at(offset).len() % 256) as u8;
            Some(Item::Leaf(page.row_at(offset).block(), len, next))
        }
        TupleKind::Inner => {
            if page.node_count_at(offset) != 1 || !page.all_same_at(offset) {
                return None;
            }
            if page.label_at(offset, 0) != -2 || page.prefix_at(offset).len() != 5 {
                return None;
            }
            match page.link_at(offset, 0) {
                None => Some(Item::Inner(0)),
                Some(to) => Some(Item::Inner(to.block.0)),
            }
        }
        TupleKind::Dead => Some(Item::Dead),
        TupleKind::Redirect => {
            if page.stamp_at(offset).moment() != 5 {
                return None;
            }
            Some(Item::Redirect(page.target_at(offset).block.0))
        }
        TupleKind::Placeholder => Some(Item::Placeholder),
    }
}

/// Whether the page tells of the list's tuples, and of the bytes that they leave.
fn is_equal(page: &Page, list: &[Item]) -> bool {
    let mut all = page.count() as usize == list.len();
    let mut used = 0u64;
    let mut empty = 0u64;
    let mut o = 0u16;
    for item in list {
        o = o.wrapping_add(1);
        all = all && seen(page, o) == Some(*item);
        used = used.wrapping_add(size_of(*item) as u64 + 4);
        empty = empty.wrapping_add((*item == Item::Placeholder) as u64);
    }
    all && used.wrapping_add(page.free() as u64) == 8160 && page.placeholders() as u64 == empty
}

const CHANGES: [Change; 22] = [
    Change::Add(Item::Leaf(1, 8, 0)),
    Change::Add(Item::Leaf(2, 0, 1)),
    Change::Add(Item::Inner(0)),
    Change::Add(Item::Redirect(6)),
    Change::SetLink(3, 70_000),
    Change::SetNext(2, 4),
    Change::Replace(1, Item::Placeholder),
    Change::Replace(4, Item::Placeholder),
    Change::Add(Item::Leaf(5, 200, 0)),
    Change::Replace(3, Item::Leaf(6, 3, 9)),
    Change::Remove(2),
    Change::Add(Item::Dead),
    Change::Blank(1, 3),
    Change::Add(Item::Leaf(7, 40, 0)),
    Change::Add(Item::Dead),
    Change::Replace(2, Item::Inner(3)),
    Change::Replace(1, Item::Leaf(4, 1, 2)),
    Change::Add(Item::Placeholder),
    Change::Add(Item::Placeholder),
    Change::Replace(3, Item::Placeholder),
    Change::TrimEnd,
    Change::Add(Item::Leaf(9, 255, 0)),
];

/// Changes both, and says whether the page tells of the list then.
fn change_both(
    alloc: Global,
    page: &mut Page,
    list: &mut Vec<Item>,
    change: Change,
) -> Result<bool, Memory> {
    change_page(alloc, page, change)?;
    change_list(list, change)?;
    Ok(is_equal(page, list.as_slice()))
}

/// Whether the tuple at the second offset is seen as it was written.
fn shows_the_inner(alloc: Global, page: &Page) -> Result<bool, Memory> {
    if !is_inner(page, 2) {
        return Ok(false);
    }
    let view = page.view_at(alloc, Offset(2))?;
    Ok(
        view.all_same
            && view.prefix.as_slice() == [9; 5].as_slice()
            && view.labels.as_slice() == [-2].as_slice(),
    )
}

/// Whether a page of another kind becomes the same page.
fn is_copied(alloc: Global, page: &Page) -> Result<bool, Memory> {
    let mut other = Page::new(alloc, PageKind::Inner, false)?;
    other.copy_from(page);
    Ok(
        other.kind() == PageKind::Leaf
            && other.is_nulls()
            && other.bytes().as_slice() == page.bytes().as_slice(),
    )
}

#[test]
fn changes_match_a_list(rt: HostRuntime) -> Result<(), Fail> {
    let mut page = Page::new(rt.alloc(), PageKind::Leaf, true)?;
    let mut list = Vec::new(rt.alloc());
    for change in &CHANGES {
        assert!(rt;
            change_both(rt.alloc(), &mut page, &mut list, *change)?,
            "{change:?}"
        );
    }
    assert!(rt; shows_the_inner(rt.alloc(), &page)? && is_copied(rt.alloc(), &page)?);
    Ok(())
}
