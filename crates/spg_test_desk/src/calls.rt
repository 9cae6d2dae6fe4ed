//! The calls of a seat, one after another.
ghost use Rattle.std.specs.Prelude.{◌≡◌};
ghost use Rattle.spg_share.specs.Seats.{seat_name};

use crate::shared::run;
use spg_base::{Memory, Point, Row, Span, Stat};
use spg_opclass::Query;
use spg_quad::Quad;
use spg_share::{
    FindAnswer, HeldAnswer, InsertAnswer, KillAnswer, Lane, Seat, StatAnswer, Task, VacuumAnswer,
};
use spg_whole::Index;
use std::mem;
use std::sync::Wait;
use std::test::Fail;
use std::thread::Threads;

/// Whether the calls of a seat answered what they are to: those before the row is deleted, those up to the
/// vacuum, and those then.
#[derive(Clone, Copy, PartialEq, Eq)]
struct Calls {
    put: bool,
    swept: bool,
    again: bool,
}

const ORIGIN: Option<Point> = Some(Point { x: 0, y: 0 });

/// The counts of an index of one row.
const STAT: Stat = Stat {
    pages: 3,
    inner: 0,
    leaf: 1,
    redirect: 0,
    dead: 0,
    placeholder: 0,
    clock: 0,
};

/// The row is added, found, and in use.
fn puts<R: Wait>(rt: &R, seat: &mut Seat<'_, Quad>, row: Row) -> bool
    ensures { seat_name seat.new ≡ seat_name seat.old }
{
    let added = seat.insert(rt, row, ORIGIN) == InsertAnswer::Added(span(0, 2));
    let found = gave_one(&seat.find(rt, Query::All), span(2, 4));
    let used = seat.insert(rt, row, ORIGIN) == InsertAnswer::RowUsed(span(4, 4));
    added && found && used
}

/// The row is deleted once, and swept.
fn sweeps<R: Wait>(rt: &R, seat: &mut Seat<'_, Quad>, row: Row) -> bool
    ensures { seat_name seat.new ≡ seat_name seat.old }
{
    let killed = seat.delete(rt, row) == KillAnswer::Killed(span(4, 5));
    let not_live = seat.delete(rt, row) == KillAnswer::NotLive(span(5, 5));
    let swept = VacuumAnswer::Vacuumed {
        swept: 1,
        span: span(5, 8),
    };
    seat.vacuum(rt) == swept && killed && not_live
}

/// The row is free then, and added again.
fn puts_again<R: Wait>(rt: &R, seat: &mut Seat<'_, Quad>, row: Row) -> bool
    ensures { seat_name seat.new ≡ seat_name seat.old }
{
    let held = seat.held_by(rt, row) == HeldAnswer { by: None, at: 8 };
    let added = seat.insert(rt, row, None) == InsertAnswer::Added(span(8, 10));
    let counted = StatAnswer { stat: STAT, at: 10 };
    seat.stat(rt) == counted && held && added
}

impl Task<Quad> for Calls {
    fn run<R: Wait>(&mut self, rt: &R, seat: &mut Seat<'_, Quad>) {
        let row = Row::at(1, 1);
        self.put = puts(rt, seat, row);
        self.swept = sweeps(rt, seat, row);
        self.again = puts_again(rt, seat, row);
    }
}

fn span(from: u64, to: u64) -> Span {
    Span { from, to }
}

/// Whether the find gave just row 1.1, in this span.
fn gave_one(found: &FindAnswer, at: Span) -> bool {
    match found {
        FindAnswer::Found { rows, span } => {
            rows.as_slice() == [Row::at(1, 1)].as_slice() && *span == at
        }
        FindAnswer::Memory(_) => false,
    }
}

/// What came of the calls, and how many events there are then.
fn come<R: AllocGlobal + Threads + Wait + Sync>(rt: &R) -> Result<(Calls, u64), Memory> {
    let index = Index::new(rt.alloc(), Quad, 4096)?;
    let mut lanes = [Lane::new(Calls {
        put: false,
        swept: false,
        again: false,
    })];
    let index = run(rt, index, &mut lanes)?;
    let events = index.journal().len();
    mem::forget(index);
    Ok((lanes[0].task, events))
}

/// Each call tells its span, and one without an event ends where it began. A row is found once it was
/// inserted, cannot be inserted again, is deleted once, is swept by a vacuum, and may be inserted then.
#[test]
fn spans_are_those_of_the_events(rt: HostRuntime) -> Result<(), Fail> {
    let (calls, events) = come(&rt)?;
    let right = Calls {
        put: true,
        swept: true,
        again: true,
    };
    assert!(rt; calls == right);
    assert!(rt; events == 10);
    Ok(())
}
