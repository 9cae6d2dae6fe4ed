//! Two seats, each of which looks for the rows that are nearest to a corner of its own.
ghost use Rattle.std.specs.Prelude.{◌≡◌};
ghost use Rattle.spg_share.specs.Seats.{seat_name};

use crate::shared::run;
use spg_base::{Memory, Point, Row};
use spg_io::PlainImages;
use spg_near::NearRow;
use spg_quad::Quad;
use spg_share::{InsertAnswer, Lane, NearAnswer, PagesAnswer, Seat, Task};
use spg_whole::Index;
use std::alloc::Global;
use std::mem;
use std::sync::Wait;
use std::test::Fail;
use std::thread::Threads;

/// Adds a row at a corner, two at one point beside it and a null, asks for the rows nearest to the corner, three
/// of them and then none, and looks at the index: whether each went as it is to.
#[derive(Drop)]
struct Corner {
    block: u32,
    x: i32,
    added: bool,
    found: bool,
    seen: bool,
    images: PlainImages,
}

impl Corner {
    fn at(alloc: Global, block: u32, x: i32) -> Corner {
        Corner {
            block,
            x,
            added: false,
            found: false,
            seen: false,
            images: PlainImages::new(alloc),
        }
    }
}

/// Whether a row is added.
fn adds<R: Wait>(rt: &R, seat: &mut Seat<'_, Quad>, row: Row, key: Option<Point>) -> bool
    ensures { seat_name seat.new ≡ seat_name seat.old }
{
    match &seat.insert(rt, row, key) {
        InsertAnswer::Added(_) => true,
        _ => false,
    }
}

/// Whether the rows of a corner are added.
fn adds_all<R: Wait>(rt: &R, seat: &mut Seat<'_, Quad>, block: u32, x: i32) -> bool
    ensures { seat_name seat.new ≡ seat_name seat.old }
{
    let far = adds(rt, seat, Row::at(block, 1), Some(Point { x, y: 9 }));
    let late = adds(rt, seat, Row::at(block, 4), Some(Point { x, y: 3 }));
    let first = adds(rt, seat, Row::at(block, 2), Some(Point { x, y: 3 }));
    let null = adds(rt, seat, Row::at(block, 3), None);
    far && late && first && null
}

/// Whether these rows are told.
fn gives(answer: &NearAnswer, wanted: &[NearRow]) -> bool {
    match answer {
        NearAnswer::Near { rows, .. } => rows.as_slice() == wanted,
        NearAnswer::Memory(_) => false,
    }
}

/// Whether the rows nearest to a corner are found, so many.
fn finds<R: Wait>(rt: &R, seat: &mut Seat<'_, Quad>, x: i32, count: u16, wanted: &[NearRow]) -> bool
    ensures { seat_name seat.new ≡ seat_name seat.old }
{
    gives(&seat.near(rt, Point { x, y: 0 }, count), wanted)
}

fn near_row(block: u32, offset: u16, distance: u128) -> NearRow {
    let row = Row::at(block, offset.max(1));
    NearRow { row, distance }
}

/// Whether three rows are found, of two at one point the lower one first, and none where none is asked for.
fn finds_nearest<R: Wait>(rt: &R, seat: &mut Seat<'_, Quad>, block: u32, x: i32) -> bool
    ensures { seat_name seat.new ≡ seat_name seat.old }
{
    let nearest = [
        near_row(block, 2, 9),
        near_row(block, 4, 9),
        near_row(block, 1, 81),
    ];
    let three = finds(rt, seat, x, 3, &nearest);
    let none = finds(rt, seat, x, 0, &[]);
    three && none
}

/// Whether the counts and a row are as they are to be.
fn sees<R: Wait>(rt: &R, seat: &mut Seat<'_, Quad>, row: Row) -> bool
    ensures { seat_name seat.new ≡ seat_name seat.old }
{
    let leaves = seat.stat(rt).stat.leaf;
    let free = seat.held_by(rt, row).by.is_none();
    leaves >= 4 && free
}

/// Whether a copy of the pages and an image have three.
fn copies<R: Wait>(rt: &R, seat: &mut Seat<'_, Quad>, images: &mut PlainImages) -> bool
    ensures { seat_name seat.new ≡ seat_name seat.old }
{
    let pages = match &seat.pages(rt) {
        PagesAnswer::Copied { pages, .. } => pages.page_count(),
        PagesAnswer::Memory(_) => 0,
    };
    let saved = seat.save(rt, images, "corners").saved.unwrap_or(0);
    (pages, saved) == (3, 3)
}

impl Task<Quad> for Corner {
    fn run<R: Wait>(&mut self, rt: &R, seat: &mut Seat<'_, Quad>) {
        self.added = adds_all(rt, seat, self.block, self.x);
        self.found = finds_nearest(rt, seat, self.block, self.x);
        let seen = sees(rt, seat, Row::at(self.block, 1));
        self.seen = copies(rt, seat, &mut self.images) && seen;
    }
}

/// Whether all went as it is to.
fn is_right(corner: &Corner) -> [bool; 3] {
    [corner.added, corner.found, corner.seen]
}

/// How many events two corners leave, and what went as it is to.
fn come<R: AllocGlobal + Threads + Wait + Sync>(rt: &R) -> Result<(u64, [[bool; 3]; 2]), Memory> {
    let index = Index::new(rt.alloc(), Quad, 100)?;
    let mut lanes = [
        Lane::new(Corner::at(rt.alloc(), 1, 0)),
        Lane::new(Corner::at(rt.alloc(), 2, 1_000_000)),
    ];
    let index = run(rt, index, &mut lanes)?;
    let events = index.journal().len();
    mem::forget(index);
    Ok((events, [is_right(&lanes[0].task), is_right(&lanes[1].task)]))
}

#[test]
fn each_thread_finds_what_is_nearest(rt: HostRuntime) -> Result<(), Fail> {
    assert!(rt; come(&rt)? == (16, [[true; 3]; 2]));
    Ok(())
}
