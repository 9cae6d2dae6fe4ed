ghost use Rattle.std.specs.Prelude.{◌≡◌, ◌<◌, ◌≤◌};

use spg_base::{Block, Memory, SeatNo};
use spg_page::{PageKind, TupleBytes};
use spg_tree::{PageTable, PickRefused, Touched, Want};
use std::alloc::Global;
use std::process::Abort;
use std::test::Fail;

/// One step of a test, with what it must give. A seat is 0 or 1, a block that is avoided 0 for none.
#[derive(Clone, Copy, Debug)]
enum Step {
    /// Picks a leaf page of the main tree.
    Leaf {
        need: u16,
        avoid: u32,
        gives: Option<u32>,
    },
    /// Picks an inner page.
    Inner {
        seat: u8,
        nulls: bool,
        parity: u8,
        need: u16,
        gives: Option<u32>,
    },
    /// Puts a tuple on a page.
    Fill(u32),
    /// Latches a block.
    Latch {
        seat: u8,
        block: u32,
        gives: bool,
    },
    /// Releases a block.
    Release {
        seat: u8,
        block: u32,
    },
}

fn seat_of(number: u8) -> SeatNo {
    if number == 0 {
        return SeatNo::first();
    }
    match SeatNo::new(number) {
        None => SeatNo::first(),
        Some(seat) => seat,
    }
}

/// The picked block, or None where the index is full.
fn told(picked: Result<Block, PickRefused>) -> Result<Option<u32>, Memory> {
    match picked {
        Ok(block) => Ok(Some(block.0)),
        Err(PickRefused::IndexFull) => Ok(None),
        Err(PickRefused::Memory) => Err(Memory),
    }
}

fn leaf(
    alloc: Global,
    table: &mut PageTable,
    need: u16,
    avoid: u32,
) -> Result<Option<u32>, Memory> {
    if need > 8160 {
        return Ok(None);
    }
    let mut want = Want::leaf(false, need, 1, SeatNo::first());
    if avoid > 0 {
        want = want.avoiding(Block(avoid));
    }
    let picked = table.pick(alloc, &want);
    told(picked)
}

fn inner(
    alloc: Global,
    table: &mut PageTable,
    seat: SeatNo,
    nulls: bool,
    parity: u8,
    need: u16,
) -> Result<Option<u32>, Memory> {
    if need > 8160 || parity > 2 {
        return Ok(None);
    }
    let picked = table.pick(alloc, &Want::inner(nulls, parity, need, seat));
    told(picked)
}

fn fill(table: &mut PageTable, block: u32) {
    if block > 0 && block < table.page_count() {
        let page = table.page_mut(Block(block));
        let dead = TupleBytes::dead();
        if page.room(1) >= dead.size() + 4 {
            page.add(&dead);
        }
    }
}

/// Does a step, and says whether it gave what it must.
fn is_right(alloc: Global, table: &mut PageTable, step: Step) -> Result<bool, Memory> {
    match step {
        Step::Leaf { need, avoid, gives } => Ok(leaf(alloc, table, need, avoid)? == gives),
        Step::Inner {
            seat,
            nulls,
            parity,
            need,
            gives,
        } => { Ok(inner(alloc, table, seat_of(seat), nulls, parity, need)? == gives) }
        Step::Fill(block) => {
            fill(table, block);
            Ok(true)
        }
        Step::Latch { seat, block, gives } => {
            Ok(block < table.page_count() && table.try_latch(Block(block), seat_of(seat)) == gives)
        }
        Step::Release { seat, block } => {
            if block < table.page_count() {
                table.release(Block(block), seat_of(seat));
            }
            Ok(true)
        }
    }
}

/// Steps on one table with a limit of 9 blocks, one after another.
const STEPS: [Step; 23] = [
    // A new page, which is then remembered, also while it is empty.
    Step::Leaf {
        need: 28,
        avoid: 0,
        gives: Some(3),
    },
    Step::Leaf {
        need: 28,
        avoid: 0,
        gives: Some(3),
    },
    // No room there; then the remembered page is avoided.
    Step::Fill(3),
    Step::Leaf {
        need: 8160,
        avoid: 0,
        gives: Some(4),
    },
    Step::Leaf {
        need: 28,
        avoid: 4,
        gives: Some(5),
    },
    // The lowest empty page of the parity, for either kind and tree.
    Step::Inner {
        seat: 0,
        nulls: false,
        parity: 1,
        need: 60,
        gives: Some(4),
    },
    Step::Inner {
        seat: 0,
        nulls: true,
        parity: 1,
        need: 60,
        gives: Some(4),
    },
    Step::Fill(4),
    Step::Fill(5),
    // A new page of the parity; a block before it stays empty and is not remembered.
    Step::Inner {
        seat: 0,
        nulls: false,
        parity: 0,
        need: 60,
        gives: Some(6),
    },
    Step::Fill(6),
    Step::Inner {
        seat: 0,
        nulls: false,
        parity: 2,
        need: 60,
        gives: Some(8),
    },
    Step::Leaf {
        need: 28,
        avoid: 0,
        gives: Some(5),
    },
    Step::Leaf {
        need: 8160,
        avoid: 0,
        gives: Some(7),
    },
    // No page is left.
    Step::Inner {
        seat: 0,
        nulls: false,
        parity: 0,
        need: 8160,
        gives: None,
    },
    // Another seat's page is not picked.
    Step::Latch {
        seat: 1,
        block: 8,
        gives: true,
    },
    Step::Latch {
        seat: 0,
        block: 8,
        gives: false,
    },
    Step::Inner {
        seat: 0,
        nulls: false,
        parity: 2,
        need: 60,
        gives: None,
    },
    Step::Inner {
        seat: 1,
        nulls: false,
        parity: 2,
        need: 60,
        gives: Some(8),
    },
    Step::Release { seat: 0, block: 8 },
    Step::Latch {
        seat: 0,
        block: 8,
        gives: false,
    },
    Step::Release { seat: 1, block: 8 },
    Step::Inner {
        seat: 0,
        nulls: false,
        parity: 2,
        need: 60,
        gives: Some(8),
    },
];

#[test]
fn picks_and_latches(rt: HostRuntime) -> Result<(), Fail> {
    let mut table = PageTable::new(rt.alloc(), 9)?;
    for step in &STEPS {
        assert!(rt; is_right(rt.alloc(), &mut table, *step)?, "at {step:?}");
    }
    assert!(rt; table.page_count() == 9);
    assert!(rt; table.meta().remembered == [7, 6, 4, 8, 0, 0, 4, 0]);
    Ok(())
}

/// Whether the touched blocks are those that were set.
fn sets_touched(table: &mut PageTable) -> bool {
    let mut touched = Touched::new();
    touched.push(Block(3));
    touched.push_range(4, 6);
    table.set_touched(touched);
    table.touched().as_slice() == [3, 4, 5].as_slice()
}

#[test]
fn numbers(rt: HostRuntime) -> Result<(), Fail> {
    let mut table = PageTable::new(rt.alloc(), 4)?;
    let mark = table.mark();
    table.back_to(mark);
    let meta = table.meta();
    table.set_meta(meta);
    assert!(rt; sets_touched(&mut table));
    table.turn_counter();
    assert!(rt; table.counter() == 1);
    Ok(())
}

/// A pick of either kind: of an inner page with parity 0, or of a leaf page.
fn want(kind: PageKind, parity: Option<u8>) -> Want
    ensures kind { result.kind ≡ kind }
    ensures parity { result.parity ≡ parity }
    ensures need { result.need ≡ 60 }
{
    Want {
        kind,
        nulls: false,
        parity,
        need: 60,
        count: 1,
        avoid: None,
        besides: None,
        seat: SeatNo::first(),
    }
}

/// Picks an inner page and a leaf page at once.
fn picked_two(alloc: Global, table: &mut PageTable) -> Result<(Block, Block), PickRefused> {
    let first = want(PageKind::Inner, Some(0));
    let second = want(PageKind::Leaf, None);
    table.pick_two(alloc, &first, &second)
}

#[test]
fn two_pages_or_none(rt: HostRuntime) -> Result<(), Fail> {
    let mut small = PageTable::new(rt.alloc(), 4)?;
    assert!(rt; picked_two(rt.alloc(), &mut small).is_err() && small.page_count() == 3);
    let mut table = PageTable::new(rt.alloc(), 5)?;
    assert!(rt; picked_two(rt.alloc(), &mut table) == Ok((Block(3), Block(4))));
    Ok(())
}
