ghost use Rattle.std.specs.Prelude.{◌≡◌, IfOk, OnOk};
ghost use Rattle.spg_forest.specs.Pages.{IsFresh};
ghost use Rattle.spg_forest.specs.Shape.{Shape, spots};
ghost use Rattle.spg_tree.specs.Table.{sheets_of};
ghost use Rattle.spg_core.specs.Stage.{free};
ghost use Rattle.spg_core.specs.Seen.{stage_at};

use crate::sections::clock::{at_chain, copied, moved, parted};
use crate::sections::driver::begin;
use spg_base::{Block, List, Memory, Row, Stamp};
use spg_core::State;
use spg_opclass::OpClass;
use spg_page::Page;
use spg_quad::Quad;
use spg_tree::{PageTable, StepRefused};
use std::alloc::Global;
use std::mem;
use std::test::Fail;

/// The last moment of the clock.
pub(crate) const LAST: u64 = (1 << 48) - 1;

/// Limits, moments of the clock, and what comes of the move of a chain. A full clock is told before a
/// full index.
const MOVES: [(u32, u64, Result<(), StepRefused>); 4] = [
    (8, LAST, Err(StepRefused::ClockFull)),
    (4, LAST, Err(StepRefused::ClockFull)),
    (4, LAST - 1, Err(StepRefused::IndexFull)),
    (8, LAST - 1, Ok(())),
];

/// Whether the pages of a table are these.
pub(crate) fn are_pages(table: &PageTable, pages: &List<Page>) -> bool {
    if table.page_count() as usize != pages.len() {
        return false;
    }
    for block in 0..table.page_count() {
        match pages.get(block as usize) {
            Some(page) if page.bytes() == table.page(Block(block)).bytes() => {}
            _ => return false,
        }
    }
    true
}

/// What came of a section, if it was done: whether the pages and where the insert stands are as
/// before, and the clock.
#[derive(Clone, Copy, PartialEq, Eq)]
pub(crate) struct Outcome {
    pub(crate) answer: Option<Result<(), StepRefused>>,
    pub(crate) same_pages: bool,
    pub(crate) same_insert: bool,
    pub(crate) clock: u64,
}

/// Inserts so many nulls with rows 1.1, 1.2 and so on.
fn fill<O: OpClass>(state: &mut State<O>, count: u16) -> Result<(), Memory>
    requires { stage_at state.old 0 ≡ free }
    ensures { OnOk result (stage_at state.new 0 ≡ free) }
{
    for index in 0..count {
        begin(state, Row::at(1, index + 1), None, 8)?;
    }
    Ok(())
}

/// The pages of an index once its nulls tree is just divided, at this limit and moment. The row is not on
/// them.
fn filled<O: OpClass>(
    alloc: Global,
    state: &mut State<O>,
    row: Row,
    limit: u32,
    clock: Stamp,
) -> Result<PageTable, Memory>
    requires { stage_at state.old 0 ≡ free }
    ensures shape { IfOk result (λ made. Shape O.meaning (sheets_of made)) }
    ensures fresh { IfOk result (λ made. IsFresh (spots (sheets_of made)) row) }
{
    fill(state, 409)?;
    parted(alloc, state, row, limit, clock)
}

/// The pages of an index whose nulls tree was just divided, so that its lists fill the last page, at
/// this limit and moment. The row is not on them.
fn prepared<O: OpClass>(
    alloc: Global,
    class: O,
    row: Row,
    limit: u32,
    clock: Stamp,
) -> Result<PageTable, Memory>
    ensures shape { IfOk result (λ made. Shape O.meaning (sheets_of made)) }
    ensures fresh { IfOk result (λ made. IsFresh (spots (sheets_of made)) row) }
{
    let mut state = State::new(alloc, class, 4)?;
    let made = filled(alloc, &mut state, row, limit, clock);
    mem::forget(state);
    made
}

/// An insert of a null comes to the first chain, which is to move.
fn tried<O: OpClass>(
    alloc: Global,
    class: &O,
    table: &mut PageTable,
    row: Row,
) -> Result<Outcome, Memory>
    requires shape { Shape O.meaning (sheets_of table.old) }
    requires fresh { IsFresh (spots (sheets_of table.old)) row }
{
    let descent = at_chain(alloc, class, table, row)?;
    let pages = copied(alloc, table)?;
    let before = (descent.stand(), descent.parent());
    let answer = moved(alloc, table, &descent);
    Ok(Outcome {
        answer,
        same_pages: are_pages(table, &pages),
        same_insert: (descent.stand(), descent.parent()) == before,
        clock: table.clock(),
    })
}

/// What comes of the move at a limit and a moment.
fn moved_at<O: OpClass>(
    alloc: Global,
    class: O,
    limit: u32,
    moment: u64,
) -> Result<Outcome, Memory> {
    let Some(clock) = Stamp::new(moment) else {
        return Err(Memory);
    };
    let row = Row::at(2, 1);
    let mut table = prepared(alloc, class, row, limit, clock)?;
    tried(alloc, &class, &mut table, row)
}

/// Whether that comes of the move. Where none is done, pages, insert and clock stay.
fn is_so(
    alloc: Global,
    limit: u32,
    moment: u64,
    wanted: Result<(), StepRefused>,
) -> Result<bool, Memory> {
    let outcome = moved_at(alloc, Quad, limit, moment)?;
    let stays = wanted.is_err();
    let expected = Outcome {
        answer: Some(wanted),
        same_pages: stays,
        same_insert: true,
        clock: if stays { moment } else { LAST },
    };
    Ok(outcome == expected)
}

/// Once the clock has come to its end no chain moves, and pages and insert stay as they were. The
/// last moment but one still serves.
#[test]
fn moves_no_chain_once_the_clock_is_full(rt: HostRuntime) -> Result<(), Fail> {
    for (limit, moment, wanted) in MOVES {
        assert!(rt; is_so(rt.alloc(), limit, moment, wanted)?);
    }
    Ok(())
}
