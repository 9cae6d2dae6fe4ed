//! While an index asks the class for one thread, another thread goes on.
ghost use Rattle.std.specs.Prelude.{◌≡◌, ◌<◌, ◌≤◌, length};
ghost use Rattle.spg_share.specs.Seats.{seat_name};

use crate::shared::run;
use crate::watched::{Flags, Watched, is_set, set};
use spg_base::{List, Memory, Point, PointCond, Row};
use spg_opclass::Query;
use spg_share::{FindAnswer, InsertAnswer, Lane, Seat, Task};
use spg_whole::Index;
use std::alloc::Global;
use std::mem;
use std::sync::Wait;
use std::sync::atomic::Ordering;
use std::test::Fail;
use std::thread::Threads;

/// How many points stand in the index before: more than fit on the root page.
const POINTS: u16 = 292;

/// A lane: whether it puts a row once a scan has asked the class, or looks for the last point; and how many
/// rows it has found.
#[derive(Drop)]
struct Work {
    alloc: Global,
    class: Watched,
    puts: bool,
    found: usize,
}

/// Waits until the scan has asked the class, and puts a row.
fn put<R: Wait>(rt: &R, seat: &mut Seat<'_, Watched>, class: Watched)
    ensures { seat_name seat.new ≡ seat_name seat.old }
{
    if !is_set(&class.flags.asked) {
        return;
    }
    let answer = seat.insert(rt, Row::at(9, 1), Some(Point { x: 300, y: 0 }));
    if let InsertAnswer::Added(_) = &answer {
        set(&class.flags.put);
    }
}

/// The query for the last point.
fn last_point(alloc: Global) -> Result<Query<Watched>, Memory> {
    let mut conds = List::new(alloc);
    conds.push(PointCond::Eq(Point {
        x: i32::from(POINTS),
        y: 0,
    }))?;
    Ok(Query::Where(conds))
}

/// How many rows a find of the last point gives.
fn look<R: Wait>(rt: &R, seat: &mut Seat<'_, Watched>, alloc: Global) -> usize
    ensures { seat_name seat.new ≡ seat_name seat.old }
{
    let Ok(query) = last_point(alloc) else {
        return 0;
    };
    match &seat.find(rt, query) {
        FindAnswer::Found { rows, .. } => rows.len(),
        FindAnswer::Memory(_) => 0,
    }
}

impl Task<Watched> for Work {
    fn run<R: Wait>(&mut self, rt: &R, seat: &mut Seat<'_, Watched>) {
        if self.puts {
            put(rt, seat, self.class);
        } else {
            self.found = look(rt, seat, self.alloc);
        }
    }
}

/// Inserts the points 1,0 and so on.
fn fill(index: &mut Index<Watched>) -> Result<(), Memory> {
    for number in 1..=POINTS {
        let point = Point {
            x: i32::from(number),
            y: 0,
        };
        if index.insert(Row::at(1, number), Some(point)).is_err() {
            return Err(Memory);
        }
    }
    Ok(())
}

/// An index of the points.
fn filled(alloc: Global, flags: &'static Flags) -> Result<Index<Watched>, Memory> {
    let mut index = Index::new(alloc, Watched { flags }, 4096)?;
    match fill(&mut index) {
        Ok(()) => Ok(index),
        Err(memory) => {
            mem::forget(index);
            Err(memory)
        }
    }
}

/// A lane that puts or looks.
fn lane(alloc: Global, flags: &'static Flags, puts: bool) -> Lane<Watched, Work> {
    Lane::new(Work {
        alloc,
        class: Watched { flags },
        puts,
        found: 0,
    })
}

/// How many rows a scan finds while another lane puts a row, and how many rows there are then.
fn found_beside<R: AllocGlobal + Threads + Wait + Sync>(
    rt: &R,
    flags: &'static Flags,
) -> Result<(usize, u64), Memory> {
    let index = filled(rt.alloc(), flags)?;
    let mut lanes = [
        lane(rt.alloc(), flags, true),
        lane(rt.alloc(), flags, false),
    ];
    let index = run(rt, index, &mut lanes)?;
    let leaves = index.stat().leaf;
    mem::forget(index);
    Ok((lanes[1].task.found, leaves))
}

/// A scan asks the class, which does not answer before another thread has put a row: so the scan does not keep
/// the lock meanwhile.
#[test]
fn others_go_on_while_the_class_is_asked(rt: HostRuntime) -> Result<(), Fail> {
    let flags = Flags::new(rt.alloc())?;
    assert!(rt; found_beside(&rt, flags)? == (1, 293));
    assert!(rt; flags.put.load(Ordering::SeqCst) == 1);
    assert!(rt; flags.answered.load(Ordering::SeqCst) == 1);
    Ok(())
}
