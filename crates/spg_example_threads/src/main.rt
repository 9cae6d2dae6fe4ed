//! Four threads share an index of points: three insert, delete and find, one vacuums beside them.
#![tactic(auto)]

ghost use Rattle.std.specs.Prelude.{◌≡◌, ◌<◌, ◌≤◌, length, IfOk};
ghost use Rattle.spg_share.specs.Seats.{seat_name};

use spg_share::{FindAnswer, Lane, Seat, Task, share};
use spgist::{DEFAULT_LIMIT, Index, Memory, Point, Quad, Query, Row, within};
use std::alloc::Global;
use std::mem;
use std::sync::Wait;
use std::thread::Threads;

/// Which thread vacuums; the threads before it have a line of points each.
const VACUUMS: u8 = 3;

/// What a thread is to do, and how many rows its search has found.
#[derive(Drop)]
struct Work {
    number: u8,
    /// The points of this thread's line. The thread that vacuums needs none.
    line: Query<Quad>,
    found: Option<usize>,
}

/// The lane of a thread.
fn lane(alloc: Global, number: u8) -> Result<Lane<Quad, Work>, Memory> {
    let y = i32::from(number);
    let line = within(alloc, Point { x: 0, y }, Point { x: 200, y })?;
    Ok(Lane::new(Work {
        number,
        line,
        found: None,
    }))
}

/// Inserts a point of a line, and deletes every second one.
fn put<R: Wait>(rt: &R, seat: &mut Seat<'_, Quad>, line: u8, n: u16)
    requires { 0 < n }
    ensures { seat_name seat.new ≡ seat_name seat.old }
{
    let at = Point {
        x: i32::from(n),
        y: i32::from(line),
    };
    let row = Row::at(u32::from(line), n);
    let _ = seat.insert(rt, row, Some(at));
    if n % 2 == 0 {
        let _ = seat.delete(rt, row);
    }
}

/// Inserts the points of a line.
fn fill<R: Wait>(rt: &R, seat: &mut Seat<'_, Quad>, line: u8)
    ensures { seat_name seat.new ≡ seat_name seat.old }
{
    for n in 1..=100u16 {
        put(rt, seat, line, n);
    }
}

/// How many rows a search of the seat has found.
fn count<R: Wait>(rt: &R, seat: &mut Seat<'_, Quad>, query: Query<Quad>) -> Option<usize>
    ensures { seat_name seat.new ≡ seat_name seat.old }
{
    match &seat.find(rt, query) {
        FindAnswer::Found { rows, .. } => Some(rows.len()),
        FindAnswer::Memory(_) => None,
    }
}

impl Task<Quad> for Work {
    fn run<R: Wait>(&mut self, rt: &R, seat: &mut Seat<'_, Quad>) {
        if self.number == VACUUMS {
            let _ = seat.vacuum(rt);
            return;
        }
        fill(rt, seat, self.number);
        let line = std::mem::replace(&mut self.line, Query::Null);
        self.found = count(rt, seat, line);
    }
}

/// Four lanes: three lines and the vacuum.
fn lanes(alloc: Global) -> Result<Vec<Lane<Quad, Work>>, Memory>
    ensures { IfOk result (λ lanes. length lanes.items ≡ 4) }
{
    let mut lanes = Vec::new(alloc);
    lanes.push(lane(alloc, 0)?)?;
    lanes.push(lane(alloc, 1)?)?;
    lanes.push(lane(alloc, 2)?)?;
    lanes.push(lane(alloc, VACUUMS)?)?;
    Ok(lanes)
}

/// Shares a new index among the lanes.
fn run<R: AllocGlobal + Threads + Wait + Sync>(
    rt: &R,
    lanes: &mut [Lane<Quad, Work>],
) -> Result<Index<Quad>, Memory>
    requires { (0 < length lanes.old) × (length lanes.old ≤ 64) }
{
    let index = Index::new(rt.alloc(), Quad, DEFAULT_LIMIT)?;
    match share(rt, index, lanes) {
        Ok(index) => Ok(index),
        Err((_, memory)) => Err(memory),
    }
}

/// Prints what each thread has found.
fn tell(rt: &HostRuntime, lanes: &[Lane<Quad, Work>]) -> anyhow::Result<()> {
    for lane in lanes {
        if let Some(found) = lane.task.found {
            println!(rt; "thread {}: {found} rows", lane.task.number)?;
        }
    }
    Ok(())
}

/// Sweeps the rows that were deleted, and prints how many are left.
fn tell_left(rt: &HostRuntime, index: &mut Index<Quad>) -> anyhow::Result<()> {
    index.vacuum()?;
    println!(rt; "{} rows", index.find(Query::All)?.len())?;
    Ok(())
}

fn main(rt: HostRuntime) -> anyhow::Result<()> {
    let mut lanes = lanes(rt.alloc())?;
    let mut index = run(&rt, lanes.as_mut_slice())?;
    let told = tell(&rt, lanes.as_slice());
    let done = tell_left(&rt, &mut index);
    // The process ends, so its memory need not be given back piece by piece.
    mem::forget(index);
    told.and(done)
}
