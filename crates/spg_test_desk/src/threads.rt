//! Threads that share an index, and the journal that comes of it.
ghost use Rattle.std.specs.Prelude.{◌≡◌, ◌<◌, ◌≤◌, length, vec_len, IfOk};
ghost use Rattle.spg_share.specs.Seats.{seat_name};

use crate::shared::run;
use spg_base::{List, Memory, Point, PointCond, Row};
use spg_opclass::Query;
use spg_quad::Quad;
use spg_share::{FindAnswer, InsertAnswer, KillAnswer, Lane, Seat, Task, VacuumAnswer};
use spg_test_index::{Replayed, judge};
use spg_whole::Index;
use std::alloc::Global;
use std::mem;
use std::sync::Wait;
use std::test::Fail;
use std::thread::Threads;

/// How many rows each lane puts. It deletes every other one, and puts it again where it is swept by then.
const ROWS: u16 = 200;

/// The number of the lane that vacuums.
const VACUUMS: u16 = 4;

/// A lane: its number from 0 on, and what it has done.
#[derive(Drop)]
struct Work {
    alloc: Global,
    number: u16,
    done: Done,
}

/// How many rows were put, deleted and swept, how many finds and vacuums came to their ends, and how many
/// calls were refused for want of memory or pages, or as a vacuum was open.
#[derive(Clone, Copy)]
struct Done {
    added: u64,
    killed: u64,
    swept: u64,
    finds: u64,
    vacuums: u64,
    refused: u64,
}

const NOTHING: Done = Done {
    added: 0,
    killed: 0,
    swept: 0,
    finds: 0,
    vacuums: 0,
    refused: 0,
};

/// Counts one more.
fn count(number: &mut u64) {
    *number = number.saturating_add(1);
}

fn row_of(lane: u16, number: u16) -> Row {
    Row::at(1, (lane % 4) * ROWS + number.min(ROWS - 1) + 1)
}

/// A point of a small grid, so that chains move and divide, or a null.
fn key_of(lane: u16, number: u16) -> Option<Point> {
    if number % 16 == 0 {
        return None;
    }
    Some(Point {
        x: i32::from(number) * 7 % 40,
        y: i32::from(lane),
    })
}

/// What a lane looks for.
fn query_of(alloc: Global, number: u16) -> Result<Query<Quad>, Memory> {
    match number % 4 {
        0 => Ok(Query::All),
        1 => Ok(Query::Null),
        _ => {
            let mut conds = List::new(alloc);
            conds.push(PointCond::Left(i32::from(number) % 40))?;
            Ok(Query::Where(conds))
        }
    }
}

/// Notes what came of an insert. A row may be in use, or wait for a seat.
fn note_insert(done: &mut Done, answer: &InsertAnswer) {
    match answer {
        InsertAnswer::Added(_) => count(&mut done.added),
        InsertAnswer::RowUsed(_) | InsertAnswer::RowHeld { .. } => {}
        _ => count(&mut done.refused),
    }
}

/// Notes what came of a delete. A row may not be live.
fn note_delete(done: &mut Done, answer: &KillAnswer) {
    match answer {
        KillAnswer::Killed(_) => count(&mut done.killed),
        KillAnswer::NotLive(_) => {}
        KillAnswer::Memory(_) => count(&mut done.refused),
    }
}

/// Notes what came of a find.
fn note_find(done: &mut Done, answer: &FindAnswer) {
    match answer {
        FindAnswer::Found { .. } => count(&mut done.finds),
        FindAnswer::Memory(_) => count(&mut done.refused),
    }
}

/// Notes what came of a vacuum.
fn note_vacuum(done: &mut Done, answer: &VacuumAnswer) {
    match answer {
        VacuumAnswer::Vacuumed { swept, .. } => {
            done.swept = done.swept.saturating_add(*swept);
            count(&mut done.vacuums);
        }
        _ => count(&mut done.refused),
    }
}

/// Inserts a row.
fn put<R: Wait>(rt: &R, seat: &mut Seat<'_, Quad>, task: &mut Work, number: u16)
    ensures { seat_name seat.new ≡ seat_name seat.old }
{
    let (row, key) = (row_of(task.number, number), key_of(task.number, number));
    let answer = seat.insert(rt, row, key);
    note_insert(&mut task.done, &answer);
}

/// Deletes a row.
fn take<R: Wait>(rt: &R, seat: &mut Seat<'_, Quad>, task: &mut Work, number: u16)
    ensures { seat_name seat.new ≡ seat_name seat.old }
{
    let answer = seat.delete(rt, row_of(task.number, number));
    note_delete(&mut task.done, &answer);
}

/// Looks for rows.
fn look<R: Wait>(rt: &R, seat: &mut Seat<'_, Quad>, task: &mut Work, number: u16)
    ensures { seat_name seat.new ≡ seat_name seat.old }
{
    match query_of(task.alloc, number) {
        Ok(query) => note_find(&mut task.done, &seat.find(rt, query)),
        Err(_) => count(&mut task.done.refused),
    }
}

/// Runs a vacuum.
fn clean<R: Wait>(rt: &R, seat: &mut Seat<'_, Quad>, task: &mut Work)
    ensures { seat_name seat.new ≡ seat_name seat.old }
{
    let answer = seat.vacuum(rt);
    note_vacuum(&mut task.done, &answer);
}

/// Puts a row, and looks at times. Deletes the row where its number is odd; where it is even, an earlier one is
/// tried again.
fn handle_row<R: Wait>(rt: &R, seat: &mut Seat<'_, Quad>, task: &mut Work, number: u16)
    ensures { seat_name seat.new ≡ seat_name seat.old }
{
    put(rt, seat, task, number);
    if number % 4 == 3 {
        look(rt, seat, task, number / 4);
    }
    if number % 2 == 1 {
        take(rt, seat, task, number);
    } else {
        put(rt, seat, task, number / 2);
    }
}

/// Handles each row of a lane.
fn handle_rows<R: Wait>(rt: &R, seat: &mut Seat<'_, Quad>, task: &mut Work)
    ensures { seat_name seat.new ≡ seat_name seat.old }
{
    for number in 0..ROWS {
        handle_row(rt, seat, task, number);
    }
}

/// Runs some vacuums.
fn clean_often<R: Wait>(rt: &R, seat: &mut Seat<'_, Quad>, task: &mut Work)
    ensures { seat_name seat.new ≡ seat_name seat.old }
{
    for _ in 0..20u16 {
        clean(rt, seat, task);
    }
}

impl Task<Quad> for Work {
    fn run<R: Wait>(&mut self, rt: &R, seat: &mut Seat<'_, Quad>) {
        if self.number == VACUUMS {
            clean_often(rt, seat, self);
        } else {
            handle_rows(rt, seat, self);
        }
    }
}

/// A lane for each number.
fn lanes(alloc: Global) -> Result<Vec<Lane<Quad, Work>>, Memory>
    ensures { IfOk result (λ lanes. vec_len lanes ≡ 5) }
{
    let mut lanes = Vec::new(alloc);
    for number in 0..5u16 {
        lanes.push(Lane::new(Work {
            alloc,
            number,
            done: NOTHING,
        }))?;
    }
    Ok(lanes)
}

/// What all lanes did.
fn total(lanes: &[Lane<Quad, Work>]) -> Done {
    let mut all = NOTHING;
    for lane in lanes {
        let done = &lane.task.done;
        all.added = all.added.saturating_add(done.added);
        all.killed = all.killed.saturating_add(done.killed);
        all.swept = all.swept.saturating_add(done.swept);
        all.finds = all.finds.saturating_add(done.finds);
        all.vacuums = all.vacuums.saturating_add(done.vacuums);
        all.refused = all.refused.saturating_add(done.refused);
    }
    all
}

/// How many events an index has whose lanes did this, where nothing was given up.
fn events(all: Done) -> u64 {
    let twice = all
        .added
        .saturating_add(all.finds)
        .saturating_add(all.vacuums);
    twice
        .saturating_mul(2)
        .saturating_add(all.killed)
        .saturating_add(all.swept)
}

/// What came of the threads: the length of the journal, its replay, how many rows are found then, and whether
/// chains were moved and divided.
#[derive(Clone, Copy)]
struct Came {
    events: u64,
    replayed: Option<Replayed>,
    left: usize,
    divided: bool,
}

fn look_at(alloc: Global, index: &mut Index<Quad>) -> Result<Came, Memory> {
    let events = index.journal().len();
    let replayed = judge(alloc, index.journal())?;
    let stat = index.stat();
    let left = index.find(Query::All)?.len();
    Ok(Came {
        events,
        replayed,
        left,
        divided: stat.inner > 1 && stat.clock > 0,
    })
}

/// Lets the lanes share a new index, and looks at it then.
fn come<R: AllocGlobal + Threads + Wait + Sync>(
    rt: &R,
    lanes: &mut [Lane<Quad, Work>],
) -> Result<Came, Memory>
    requires { (0 < length lanes.old) × (length lanes.old ≤ 64) }
{
    let mut index = run(rt, Index::new(rt.alloc(), Quad, 4096)?, lanes)?;
    let came = look_at(rt.alloc(), &mut index);
    mem::forget(index);
    came
}

/// What the lanes did on a new index, and what came of it.
fn go<R: AllocGlobal + Threads + Wait + Sync>(rt: &R) -> Result<(Done, Came), Memory> {
    let mut lanes = lanes(rt.alloc())?;
    let came = come(rt, lanes.as_mut_slice())?;
    Ok((total(lanes.as_slice()), came))
}

/// Whether the journal replayed has what the lanes say that they did.
fn is_told(all: &Done, came: &Came) -> bool {
    match &came.replayed {
        Some(replayed) => {
            (replayed.vacuums as u64, replayed.swept) == (all.vacuums, all.swept)
                && came.events == events(*all)
        }
        None => false,
    }
}

/// Four lanes insert, look and delete, and a fifth vacuums. What they did is in the journal and nothing else:
/// replayed over a plain list, each find gave each row once that it had to give and none that it might not,
/// each vacuum swept all rows that were deleted before it opened, and no row was used again before its time.
#[test]
fn five_lanes_leave_a_right_journal(rt: HostRuntime) -> Result<(), Fail> {
    let (all, came) = go(&rt)?;
    assert!(rt; (all.finds, all.vacuums, all.refused) == (200, 20, 0));
    assert!(rt; all.added >= 800 && all.killed >= 300 && came.divided);
    assert!(rt; came.left as u64 == all.added.saturating_sub(all.killed));
    assert!(rt; is_told(&all, &came));
    Ok(())
}
