//! As many seats as an index has, each of which does every call.
ghost use Rattle.std.specs.Prelude.{◌≡◌, ◌<◌, ◌≤◌, length, vec_len, IfOk};
ghost use Rattle.spg_share.specs.Seats.{seat_name};

use crate::shared::run;
use spg_base::{List, Memory, Point, PointCond, Row};
use spg_io::PlainImages;
use spg_opclass::Query;
use spg_quad::Quad;
use spg_share::{
    FindAnswer, InsertAnswer, KeyAnswer, KillAnswer, Lane, NearAnswer, PagesAnswer, Seat, Task,
    VacuumAnswer,
};
use spg_whole::Index;
use std::alloc::Global;
use std::mem;
use std::sync::Wait;
use std::test::Fail;
use std::thread::Threads;

/// How many seats share an index.
const SEATS: u16 = 64;

/// A seat's number, how many calls it made, and how many of them did what they were to do.
#[derive(Drop)]
struct Each {
    alloc: Global,
    number: u16,
    images: PlainImages,
    calls: u32,
    right: u32,
}

impl Each {
    fn note(&mut self, right: bool) {
        self.calls = self.calls.saturating_add(1);
        if right {
            self.right = self.right.saturating_add(1);
        }
    }
}

/// A point of the seat's own.
fn point(number: u16) -> Point {
    Point {
        x: i32::from(number),
        y: 0,
    }
}

/// The query for a point.
fn at(alloc: Global, point: Point) -> Result<Query<Quad>, Memory> {
    let mut conds = List::new(alloc);
    conds.push(PointCond::Eq(point))?;
    Ok(Query::Where(conds))
}

/// Inserts rows at the seat's point, and deletes one of them.
fn write<R: Wait>(rt: &R, seat: &mut Seat<'_, Quad>, each: &mut Each)
    ensures { seat_name seat.new ≡ seat_name seat.old }
{
    let (first, second) = (
        Row::at(u32::from(each.number), 1),
        Row::at(u32::from(each.number), 2),
    );
    let added = seat.insert(rt, first, Some(point(each.number)));
    each.note(matches!(added, InsertAnswer::Added(_)));
    let added = seat.insert(rt, second, Some(point(each.number)));
    each.note(matches!(added, InsertAnswer::Added(_)));
    let used = seat.insert(rt, second, None);
    each.note(matches!(used, InsertAnswer::RowUsed(_)));
    let killed = seat.delete(rt, first);
    each.note(matches!(killed, KillAnswer::Killed(_)));
}

/// Whether a find gave one row.
fn gave_one(found: &FindAnswer) -> bool {
    match found {
        FindAnswer::Found { rows, .. } => rows.len() == 1,
        FindAnswer::Memory(_) => false,
    }
}

/// Whether a search gave one row, of distance 0.
fn is_near(near: &NearAnswer) -> bool {
    match near {
        NearAnswer::Near { rows, .. } => {
            rows.len() == 1 && rows.get(0).is_some_and(|row| row.distance == 0)
        }
        NearAnswer::Memory(_) => false,
    }
}

/// Finds the row that is left by its point, and as the nearest.
fn look<R: Wait>(rt: &R, seat: &mut Seat<'_, Quad>, each: &mut Each)
    ensures { seat_name seat.new ≡ seat_name seat.old }
{
    let Ok(query) = at(each.alloc, point(each.number)) else {
        return;
    };
    let found = seat.find(rt, query);
    each.note(gave_one(&found));
    let near = seat.near(rt, point(each.number), 1);
    each.note(is_near(&near));
}

/// Whether the seat tells the key of the row, or that it has none.
fn tells<R: Wait>(rt: &R, seat: &mut Seat<'_, Quad>, row: Row, key: Option<Option<Point>>) -> bool
    ensures { seat_name seat.new ≡ seat_name seat.old }
{
    match seat.key_of(rt, row) {
        KeyAnswer::Copied { key: found, .. } => found == key,
        KeyAnswer::Memory(_) => false,
    }
}

/// Looks at the key of the row that is left, and of one that never was.
fn keys<R: Wait>(rt: &R, seat: &mut Seat<'_, Quad>, each: &mut Each)
    ensures { seat_name seat.new ≡ seat_name seat.old }
{
    let block = u32::from(each.number);
    let left = tells(rt, seat, Row::at(block, 2), Some(Some(point(each.number))));
    let never = tells(rt, seat, Row::at(block, 3), None);
    each.note(left && never);
}

/// Looks at the counts, at a row and at the pages, and saves.
fn see<R: Wait>(rt: &R, seat: &mut Seat<'_, Quad>, each: &mut Each)
    ensures { seat_name seat.new ≡ seat_name seat.old }
{
    let stat = seat.stat(rt).stat;
    each.note(stat.leaf >= 1 && stat.pages >= 3);
    let held = seat.held_by(rt, Row::at(u32::from(each.number), 2)).by;
    each.note(held.is_none());
    let copied = match &seat.pages(rt) {
        PagesAnswer::Copied { pages, .. } => pages.page_count(),
        PagesAnswer::Memory(_) => 0,
    };
    each.note(copied >= 3);
    let saved = seat.save(rt, &mut each.images, "town").saved.unwrap_or(0);
    each.note(saved >= 3);
}

/// Runs a vacuum, unless another seat does.
fn clean<R: Wait>(rt: &R, seat: &mut Seat<'_, Quad>, each: &mut Each)
    ensures { seat_name seat.new ≡ seat_name seat.old }
{
    let vacuumed = seat.vacuum(rt);
    each.note(!matches!(vacuumed, VacuumAnswer::Memory(_)));
}

impl Task<Quad> for Each {
    fn run<R: Wait>(&mut self, rt: &R, seat: &mut Seat<'_, Quad>) {
        write(rt, seat, self);
        look(rt, seat, self);
        keys(rt, seat, self);
        see(rt, seat, self);
        clean(rt, seat, self);
    }
}

/// A lane for each seat.
fn lanes(alloc: Global) -> Result<Vec<Lane<Quad, Each>>, Memory>
    ensures { IfOk result (λ lanes. vec_len lanes ≡ 64) }
{
    let mut lanes = Vec::new(alloc);
    for number in 0..SEATS {
        lanes.push(Lane::new(Each {
            alloc,
            number,
            images: PlainImages::new(alloc),
            calls: 0,
            right: 0,
        }))?;
    }
    Ok(lanes)
}

/// How many rows are found in the index, and how many entries are left once the others are swept.
fn look_at(index: &mut Index<Quad>) -> Result<(usize, u64), Memory> {
    let found = index.find(Query::All)?.len();
    index.vacuum()?;
    Ok((found, index.stat().leaf))
}

/// Lets the lanes share a new index, and looks at it then.
fn come<R: AllocGlobal + Threads + Wait + Sync>(
    rt: &R,
    lanes: &mut [Lane<Quad, Each>],
) -> Result<(usize, u64), Memory>
    requires { (0 < length lanes.old) × (length lanes.old ≤ 64) }
{
    let mut index = run(rt, Index::new(rt.alloc(), Quad, 4096)?, lanes)?;
    let came = look_at(&mut index);
    mem::forget(index);
    came
}

/// Whether each seat made its calls, and all did what they were to do.
fn all_right(lanes: &[Lane<Quad, Each>]) -> bool {
    for lane in lanes {
        if (lane.task.calls, lane.task.right) != (12, 12) {
            return false;
        }
    }
    true
}

/// Whether all calls of 64 seats were right, and the rows and the entries then.
fn go<R: AllocGlobal + Threads + Wait + Sync>(rt: &R) -> Result<(bool, usize, u64), Memory> {
    let mut lanes = lanes(rt.alloc())?;
    let (found, leaves) = come(rt, lanes.as_mut_slice())?;
    Ok((all_right(lanes.as_slice()), found, leaves))
}

/// Each of 64 seats does every call, and none is short of memory.
#[test]
fn each_seat_does_every_call(rt: HostRuntime) -> Result<(), Fail> {
    assert!(rt; go(&rt)? == (true, 64, 64));
    Ok(())
}
